//! What holds of all walks. Each function computes nothing; its contract is the law.
ghost use Rattle.std.specs.Prelude.{length};
ghost use Rattle.jb_text.specs.Ends.{EndsForGood};
ghost use Rattle.jb_text.specs.WalkMut.{pairs_left, values_left};

use crate::iter::{IntoIter, Iter};
use crate::iter_mut::{IterMut, ValuesMut};
use crate::parts::{Keys, Values};

/// Each walk gives as many items as it has left and then `None` for good, whichever ends it is asked at.
pub fn walks_end_for_good<'a, V: Drop + 'a>()
    ensures pairs { EndsForGood ⟦<Iter<'a, V> as Iterator>⟧.next_gives ⟦<Iter<'a, V> as DoubleEndedIterator>⟧.next_back_gives (λ left. length left) }
    ensures pairs_mut { EndsForGood ⟦<IterMut<'a, V> as Iterator>⟧.next_gives ⟦<IterMut<'a, V> as DoubleEndedIterator>⟧.next_back_gives (λ walk. length (pairs_left walk)) }
    ensures keys { EndsForGood ⟦<Keys<'a, V> as Iterator>⟧.next_gives ⟦<Keys<'a, V> as DoubleEndedIterator>⟧.next_back_gives (λ left. length left) }
    ensures values { EndsForGood ⟦<Values<'a, V> as Iterator>⟧.next_gives ⟦<Values<'a, V> as DoubleEndedIterator>⟧.next_back_gives (λ left. length left) }
    ensures values_mut { EndsForGood ⟦<ValuesMut<'a, V> as Iterator>⟧.next_gives ⟦<ValuesMut<'a, V> as DoubleEndedIterator>⟧.next_back_gives (λ walk. length (values_left walk)) }
    ensures owned { EndsForGood ⟦<IntoIter<V> as Iterator>⟧.next_gives ⟦<IntoIter<V> as DoubleEndedIterator>⟧.next_back_gives (λ left. length left) }
{}

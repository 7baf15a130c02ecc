//! Laws of the definitions alone: what the reading functions read is what the grammar spells.

ghost use Rattle.std.specs.Prelude.{◌≡◌, ◌⊎◌, ℕ, List, Ok, Err};
ghost use Rattle.jb_read.specs.declared.fault.ReadFault.{ReadFault};
ghost use Rattle.jb_read.specs.Faults.{FrontFault, JsonFault};
ghost use Rattle.jb_read.specs.ScalarFaults.{KeyBreaks, ScalarBreaks};
ghost use Rattle.jb_read.specs.StringFaults.{StringBreaks};
ghost use Rattle.jb_read.specs.Strings.{text_at};
ghost use Rattle.jb_read.specs.Values.{key_at, scalar_at};
ghost use Rattle.jb_read.specs.declared.fault.Broken.{Broken};
ghost use Rattle.jb_tree.specs.declared.value.Value.{Value};
ghost use Rattle.jb_read.specs.Spelling.{JsonText, JsonFront};
ghost use Rattle.jb_read.specs.Texts.{text_value, text_front};

/// What is read of a whole text is what the text spells, and all that a text spells is read: the grammar gives a text
/// one value at most.
pub fn texts_are_read()
    ensures sound { (bytes : List ℕ) (v : Value) → text_value bytes ≡ Ok v → JsonText bytes v }
    ensures complete { (bytes : List ℕ) (v : Value) → JsonText bytes v → text_value bytes ≡ Ok v }
{}

/// The same of the value that a text begins with.
pub fn fronts_are_read()
    ensures sound { (bytes : List ℕ) (v : Value) → text_front bytes ≡ Ok v → JsonFront bytes v }
    ensures complete { (bytes : List ℕ) (v : Value) → JsonFront bytes v → text_front bytes ≡ Ok v }
{}

/// What a whole text is refused with is its first fault by the grammar, and that fault is what it is refused with.
pub fn faults_are_refused()
    ensures sound { (bytes : List ℕ) (f : ReadFault) → text_value bytes ≡ Err f → JsonFault bytes f }
    ensures complete { (bytes : List ℕ) (f : ReadFault) → JsonFault bytes f → text_value bytes ≡ Err f }
{}

/// For each list of bytes exactly one holds: they are a text of one value, or they have one first fault.
pub fn each_text_has_one_answer()
    ensures one { (bytes : List ℕ) → ((v : Value) × JsonText bytes v) ⊎ ((f : ReadFault) × JsonFault bytes f) }
    ensures value { (bytes : List ℕ) (v w : Value) → JsonText bytes v → JsonText bytes w → v ≡ w }
    ensures fault { (bytes : List ℕ) (f g : ReadFault) → JsonFault bytes f → JsonFault bytes g → f ≡ g }
    ensures not_both { (bytes : List ℕ) (v : Value) (f : ReadFault) → JsonText bytes v → JsonFault bytes f → ⊥ }
{}

/// What the value that a text begins with is refused with is its first fault by the grammar, and the other way round.
pub fn front_faults_are_refused()
    ensures sound { (bytes : List ℕ) (f : ReadFault) → text_front bytes ≡ Err f → FrontFault bytes f }
    ensures complete { (bytes : List ℕ) (f : ReadFault) → FrontFault bytes f → text_front bytes ≡ Err f }
{}

/// For each list of bytes exactly one holds: they begin with a text of one value, or with one first fault.
pub fn each_front_has_one_answer()
    ensures one { (bytes : List ℕ) → ((v : Value) × JsonFront bytes v) ⊎ ((f : ReadFault) × FrontFault bytes f) }
    ensures value { (bytes : List ℕ) (v w : Value) → JsonFront bytes v → JsonFront bytes w → v ≡ w }
    ensures fault { (bytes : List ℕ) (f g : ReadFault) → FrontFault bytes f → FrontFault bytes g → f ≡ g }
    ensures not_both { (bytes : List ℕ) (v : Value) (f : ReadFault) → JsonFront bytes v → FrontFault bytes f → ⊥ }
{}

/// A string, a word or a number is refused exactly where it breaks by the grammar, with that fault, and so is what begins
/// no value (RFC 8259, sections 3 and 6).
pub fn scalars_break_by_the_grammar()
    ensures sound { (at : List ℕ) (e : Broken) → scalar_at at ≡ Err e → ScalarBreaks e at }
    ensures complete { (at : List ℕ) (e : Broken) → ScalarBreaks e at → scalar_at at ≡ Err e }
{}

/// The same of a string, from behind the quote that opens it (RFC 8259, section 7).
pub fn strings_break_by_the_grammar()
    ensures sound { (inside : List ℕ) (e : Broken) → text_at inside ≡ Err e → StringBreaks e inside }
    ensures complete { (inside : List ℕ) (e : Broken) → StringBreaks e inside → text_at inside ≡ Err e }
{}

/// The same of a key and its colon (RFC 8259, section 4).
pub fn keys_break_by_the_grammar()
    ensures sound { (at : List ℕ) (e : Broken) → key_at at ≡ Err e → KeyBreaks e at }
    ensures complete { (at : List ℕ) (e : Broken) → KeyBreaks e at → key_at at ≡ Err e }
{}

//! Maps of numbers: calls succeed with ample memory, on both sides of sixteen pairs, from where on there is a table of
//! the keys.
use jb_map::Pairs;
use jb_text::{ByteString, Listed, Memory};
use std::alloc::{AllocError, Global};
use std::mem;
use std::process::Abort;

/// A key of the tests.
fn key(alloc: Global, number: u64) -> Result<ByteString, Memory> {
    let text = format!(in alloc; "key {number}")?;
    ByteString::from_text(alloc, text.as_str())
}

/// The map of these pairs, with a key for each first number.
fn map_of(alloc: Global, pairs: &[(u64, u64)]) -> Result<Pairs<u64>, Memory> {
    let mut list = Listed::new(alloc);
    for (number, value) in pairs {
        list.push((key(alloc, *number)?, *value))?;
    }
    Pairs::from_pairs(alloc, list)
}

/// Puts a value at a key, and gives the one that was there.
fn put(
    alloc: Global,
    map: &mut Pairs<u64>,
    number: u64,
    value: u64,
) -> Result<Option<u64>, Memory> {
    match map.insert(key(alloc, number)?, value) {
        Ok(old) => Ok(old),
        Err(_) => Err(AllocError),
    }
}

/// The pairs in order, as one text.
fn shown(alloc: Global, map: &Pairs<u64>) -> Result<String, Memory> {
    let mut text = String::new(alloc);
    for (key, value) in map.iter() {
        text.push_str(key.as_str())?;
        text.push_str(format!(in alloc; "={value};")?.as_str())?;
    }
    Ok(text)
}

fn assert_shows(
    rt: &impl Abort,
    alloc: Global,
    map: &Pairs<u64>,
    wanted: &str,
) -> Result<(), Memory> {
    assert_eq!(*rt; shown(alloc, map)?.as_str(), wanted);
    Ok(())
}

/// Puts each number below forty at its own key and then 0 at the key of its half: whether only the second of these keys
/// was there each time.
fn put_forty(alloc: Global, map: &mut Pairs<u64>) -> Result<bool, Memory> {
    let mut is_right = true;
    for number in 0..40u64 {
        let own = put(alloc, map, number, number)?;
        let half = put(alloc, map, number / 2, 0)?;
        is_right = is_right && own.is_none() && half.is_some();
    }
    Ok(is_right)
}

/// How many pairs there are, where their keys count up from 0.
fn count_in_order(alloc: Global, map: &Pairs<u64>) -> Result<Option<u64>, Memory> {
    let mut place = 0u64;
    for (text, _) in map.iter() {
        if text.as_str() != key(alloc, place)?.as_str() {
            return Ok(None);
        }
        place = place.saturating_add(1);
    }
    Ok(Some(place))
}

/// The values at three keys.
fn found(map: &Pairs<u64>, keys: [&str; 3]) -> [Option<u64>; 3] {
    let [first, second, third] = keys;
    [
        map.get(first).copied(),
        map.get(second).copied(),
        map.get(third).copied(),
    ]
}

fn check_places(rt: &impl Abort, alloc: Global, map: &mut Pairs<u64>) -> Result<(), Memory> {
    assert!(*rt; map.is_empty());
    assert!(*rt; put_forty(alloc, map)?);
    assert_eq!(*rt; map.len(), 40);
    let values = found(map, ["key 40", "key 3", "key 39"]);
    assert_eq!(*rt; values, [None, Some(0), Some(39)]);
    assert_eq!(*rt; count_in_order(alloc, map)?, Some(40));
    Ok(())
}

#[test]
fn a_key_keeps_its_place(rt: HostRuntime) -> Result<(), Memory> {
    check_places(&rt, rt.alloc(), &mut Pairs::new(rt.alloc()))
}

fn check_removal(rt: &impl Abort, alloc: Global, map: &mut Pairs<u64>) -> Result<(), Memory> {
    assert_shows(rt, alloc, map, "key 5=5;key 3=3;key 9=9;")?;
    assert_eq!(*rt; map.remove("key 5"), Some(5));
    assert_shows(rt, alloc, map, "key 9=9;key 3=3;")
}

#[test]
fn a_removal_moves_the_last_pair_into_the_gap(rt: HostRuntime) -> Result<(), Memory> {
    let alloc = rt.alloc();
    let mut map = map_of(alloc, &[(5, 4), (3, 3), (9, 9), (5, 5)])?;
    check_removal(&rt, alloc, &mut map)
}

/// Puts 8 at the key of 7 where there is none.
fn enter(alloc: Global, map: &mut Pairs<u64>) -> Result<(), Memory> {
    let place = map.entry(key(alloc, 7)?).or_insert(1)?;
    *place = 8;
    Ok(())
}

/// Gives what is at a key, after 6 was put there where there is none.
fn enter_with(alloc: Global, map: &mut Pairs<u64>, number: u64) -> Result<u64, Memory> {
    let place = map.entry(key(alloc, number)?).or_insert_with(|| 6)?;
    Ok(*place)
}

fn check_entry(rt: &impl Abort, alloc: Global, map: &mut Pairs<u64>) -> Result<(), Memory> {
    enter(alloc, map)?;
    assert_eq!(*rt; enter_with(alloc, map, 7)?, 8);
    assert_eq!(*rt; enter_with(alloc, map, 4)?, 6);
    map.sort_keys()?;
    assert_shows(rt, alloc, map, "key 3=3;key 4=6;key 7=8;key 9=9;")
}

#[test]
fn pairs_are_entered_and_sorted(rt: HostRuntime) -> Result<(), Memory> {
    let alloc = rt.alloc();
    let mut map = map_of(alloc, &[(9, 9), (3, 3)])?;
    check_entry(&rt, alloc, &mut map)
}

/// The last value of a map.
fn last(map: &Pairs<u64>) -> Option<u64> {
    let (_, value) = map.iter().next_back()?;
    Some(*value)
}

fn check_moves(rt: &impl Abort, from: &mut Pairs<u64>, to: &mut Pairs<u64>) -> Result<(), Memory> {
    from.retain(|_, value| *value != 8);
    to.append(from)?;
    assert!(*rt; from.is_empty());
    assert_eq!(*rt; last(to), Some(9));
    Ok(())
}

#[test]
fn pairs_are_kept_and_moved(rt: HostRuntime) -> Result<(), Memory> {
    let alloc = rt.alloc();
    let mut map = map_of(alloc, &[(3, 3), (9, 9), (7, 8)])?;
    check_moves(&rt, &mut map, &mut Pairs::new(alloc))
}

/// Writes to the place of a pair: its key.
fn write_pair<'a>(pair: (&'a ByteString, &mut u64), value: u64) -> &'a str {
    *pair.1 = value;
    pair.0.as_str()
}

/// Writes 22 to the last pair, 20 to the first and 21 to the one between: whether a walk from both ends gave these, and
/// then no more, at either end.
fn write_pairs(map: &mut Pairs<u64>) -> Option<bool> {
    let mut walk = map.iter_mut();
    let mut is_right = walk.len() == 3;
    is_right &= write_pair(walk.next_back()?, 22) == "key 2";
    is_right &= write_pair(walk.next()?, 20) == "key 0";
    is_right &= walk.len() == 1;
    is_right &= write_pair(walk.next_back()?, 21) == "key 1";
    is_right &= walk.next().is_none();
    is_right &= walk.next_back().is_none();
    Some(is_right && walk.len() == 0)
}

/// That the walks' values are there, in order and by key.
fn check_written(rt: &impl Abort, alloc: Global, map: &Pairs<u64>) -> Result<(), Memory> {
    assert_shows(rt, alloc, map, "key 0=20;key 1=21;key 2=22;")?;
    let values = found(map, ["key 0", "key 1", "key 2"]);
    assert_eq!(*rt; values, [Some(20), Some(21), Some(22)]);
    Ok(())
}

/// What a walk from both ends writes is found by key.
#[test]
fn a_walk_writes_pairs(rt: HostRuntime) -> Result<(), Memory> {
    let alloc = rt.alloc();
    let mut map = map_of(alloc, &[(0, 0), (1, 1), (2, 2)])?;
    assert_eq!(rt; write_pairs(&mut map), Some(true));
    check_written(&rt, alloc, &map)
}

/// Writes to the place of a value that a walk gave: the value that was there.
fn write_value(place: Option<&mut u64>, value: u64) -> Option<u64> {
    Some(mem::replace(place?, value))
}

/// Writes 20 to the first value, 22 to the last and 21 to the one between: whether a walk from both ends gave these, and
/// then no more, at either end.
fn write_values(map: &mut Pairs<u64>) -> bool {
    let mut walk = map.values_mut();
    let mut is_right = walk.len() == 3;
    is_right &= write_value(walk.next(), 20) == Some(0);
    is_right &= write_value(walk.next_back(), 22) == Some(2);
    is_right &= write_value(walk.next(), 21) == Some(1);
    is_right &= walk.next_back().is_none();
    is_right &= walk.next().is_none();
    is_right &= walk.next_back().is_none();
    is_right && walk.len() == 0
}

/// The same of the walk that gives the values alone, which ends for good.
#[test]
fn a_walk_writes_values(rt: HostRuntime) -> Result<(), Memory> {
    let alloc = rt.alloc();
    let mut map = map_of(alloc, &[(0, 0), (1, 1), (2, 2)])?;
    assert!(rt; write_values(&mut map));
    check_written(&rt, alloc, &map)
}

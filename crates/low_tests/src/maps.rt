//! Maps, filled and emptied out of order.

ghost use Rattle.std.specs.Prelude.{◌<◌, ◌^◌};

use fr_base::NoMemory;
use rank_map::RankMap;
use std::test::Fail;

// Puts an item at a key, for which it makes a place.
#[tactic(auto, using(rank_map::proofs::MarkLemmas::free_there))]
fn put(map: &mut RankMap<u64>, key: u64, item: u64) -> Result<Option<u64>, NoMemory>
    requires { key < 2 ^ 40 }
{
    map.reserve(key)?;
    Ok(map.insert(key, item))
}

// Takes the item of a key out, for which it makes a place; the place goes too, or stays.
#[tactic(auto, using(rank_map::proofs::MarkLemmas::free_there))]
fn take(map: &mut RankMap<u64>, key: u64, whole: bool) -> Result<Option<u64>, NoMemory>
    requires { key < 2 ^ 40 }
{
    map.reserve(key)?;
    if whole {
        Ok(map.remove(key))
    } else {
        Ok(map.take(key))
    }
}

// The last key.
const LAST: u64 = 1_099_511_627_775;

// What is done at which key, the item that comes out, and the keys of the items that are there then, by their ranks.
const STEPS: &str = "\
put 5 50|-|5
put 3 30|-|3 5
put 1099511627775 90|-|3 5 1099511627775
put 3 31|30|3 5 1099511627775
take 5|50|3 1099511627775
remove 3|31|1099511627775
put 5 51|-|5 1099511627775
# keys at the edges of blocks of sixteen
put 15 150|-|5 15 1099511627775
put 32 320|-|5 15 32 1099511627775
put 16 160|-|5 15 16 32 1099511627775
# the last places of two blocks go
remove 16|160|5 15 32 1099511627775
remove 5|51|15 32 1099511627775
remove 15|150|32 1099511627775
put 16 161|-|16 32 1099511627775
";

// The two parts of a text around its first letter that is this one, or the text and nothing.
fn cut(text: &str, between: char) -> (&str, &str) {
    match text.split_once(between) {
        Some(parts) => parts,
        None => (text, ""),
    }
}

// A number, or nothing.
fn number(text: &str) -> Option<u64> {
    text.parse::<u64>().ok()
}

// Whether the items that are there have these keys, by their ranks.
fn has_keys(map: &RankMap<u64>, keys: &str) -> bool {
    let mut count = 0usize;
    for key in keys.split(' ') {
        let there = map.nth(count);
        if there.is_none() || there != number(key) {
            return false;
        }
        count = count.saturating_add(1);
    }
    map.len() == count && map.nth(count).is_none()
}

// Whether each of these keys has an item.
fn finds_keys(map: &RankMap<u64>, keys: &str) -> bool {
    keys.split(' ').all(|key| number(key).is_some_and(|key| map.get(key).is_some()))
}

// What is done at the key, and the item that comes out.
fn done(map: &mut RankMap<u64>, what: &str, key: u64, item: u64) -> Result<Option<u64>, NoMemory>
    requires { key < 2 ^ 40 }
{
    match what {
        "put" => put(map, key, item),
        _ => take(map, key, what == "remove"),
    }
}

// Whether a step did what it should.
fn is_right(map: &mut RankMap<u64>, step: &str) -> Result<bool, NoMemory> {
    let (step, rest) = cut(step, '|');
    let (out, keys) = cut(rest, '|');
    let (what, step) = cut(step, ' ');
    let (key, item) = cut(step, ' ');
    let Some(key) = number(key) else {
        return Ok(false);
    };
    let item = number(item);
    if key > LAST || item.is_some() != (what == "put") {
        return Ok(false);
    }
    let came = done(map, what, key, item.unwrap_or(0))?;
    let kept = map.get(key).copied();
    Ok(came == number(out) && kept == item && has_keys(map, keys) && finds_keys(map, keys))
}

// The first wrong step, of a map that is empty before.
fn wrong_step<'a>(map: &mut RankMap<u64>, steps: &'a str) -> Result<Option<&'a str>, NoMemory> {
    for step in steps.lines() {
        if !step.starts_with("# ") && !is_right(map, step)? {
            return Ok(Some(step));
        }
    }
    Ok(None)
}

#[test]
fn finds_by_key_and_by_rank(rt: HostRuntime) -> Result<(), Fail> {
    let mut map = RankMap::new(rt.alloc());
    assert_eq!(rt; wrong_step(&mut map, STEPS)?, None);
    Ok(())
}

// So many keys, a prime number.
const MANY: u64 = 257;

// The first turn in which a key was there before.
fn wrong_fill(map: &mut RankMap<u64>) -> Result<Option<u64>, NoMemory> {
    for turn in 0..MANY {
        if put(map, turn * 37 % MANY, turn)?.is_some() {
            return Ok(Some(turn));
        }
    }
    Ok(None)
}

// The first turn in which another item comes out, or another number of them stays.
fn wrong_empty(map: &mut RankMap<u64>) -> Result<Option<u64>, NoMemory> {
    for turn in 0..MANY {
        let key = turn * 101 % MANY;
        // 37 times 132 is 1 more than a multiple of 257
        let out = take(map, key, true)?;
        if out != Some(key * 132 % MANY) || map.len() as u64 != MANY - 1 - turn {
            return Ok(Some(turn));
        }
    }
    Ok(None)
}

// The first wrong turn, where the map is filled and emptied, and between both has all keys by their ranks.
fn wrong_turn(map: &mut RankMap<u64>) -> Result<Option<u64>, NoMemory> {
    if let Some(turn) = wrong_fill(map)? {
        return Ok(Some(turn));
    }
    if let Some(turn) = (0..MANY).find(|turn| map.nth(*turn as usize) != Some(*turn)) {
        return Ok(Some(turn));
    }
    wrong_empty(map)
}

#[test]
fn fills_and_empties_in_other_orders(rt: HostRuntime) -> Result<(), Fail> {
    let mut map = RankMap::new(rt.alloc());
    assert_eq!(rt; wrong_turn(&mut map)?, None);
    Ok(())
}

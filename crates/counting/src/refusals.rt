// What was refused, in groups of one name and one number: how often, and the first places of each.
ghost use Rattle.std.specs.Prelude.{◌≡◌, ◌==◌, ◌||◌, position};
ghost use Rattle.counting.specs.declared.refusals.Group.{Group};
ghost use Rattle.counting.specs.Refusals as S;

use super::names::Letters;
use console::sum;
use words::{harmless, refused_kind};

pub const GROUPS: usize = 16;

pub const PLACES: usize = 6;

// Refusals of one name and number, which its key has in one and which is 0 where the group is free: how many, and the first places.
// A key is one number and no struct of both: it is compared group by group for each refusal, and number_of, name_in and kind_of promise what it has.
#[derive(Clone, Copy)]
pub struct Group {
    pub key: u64,
    pub count: u64,
    pub places: [u64; PLACES],
}

// Refusals in groups; those for which no group is free are counted alone.
#[derive(Clone, Copy)]
pub struct Refusals {
    pub groups: [Group; GROUPS],
    pub others: u64,
}

pub fn none() -> Refusals
    ensures { result ≡ S.none_of }
{
    let free = Group {
        key: 0,
        count: 0,
        places: [0; PLACES],
    };
    Refusals {
        groups: [free; GROUPS],
        others: 0,
    }
}

// A number and a name in one.
#[tactic(auto, unfolding(crate::specs::Refusals::key_of))]
fn key_of(number: u8, name: Letters) -> u64
    ensures { result ≡ S.key_of number name }
{
    number as u64 * 65536 + name.first as u64 * 256 + name.second as u64
}

// The number and the name of a key.
#[tactic(auto, unfolding(crate::specs::Refusals::number_of))]
pub fn number_of(key: u64) -> u8
    ensures { result ≡ S.number_of key }
{
    (key / 65536 % 256) as u8
}

#[tactic(auto, unfolding(crate::specs::Refusals::name_in))]
pub fn name_in(key: u64) -> Letters
    ensures { result ≡ S.name_in key }
{
    Letters {
        first: (key / 256 % 256) as u8,
        second: (key % 256) as u8,
    }
}

// The group of a key, or the first that is free.
fn group_of(groups: &[Group], key: u64) -> Option<usize>
    ensures { result ≡ position (λ (g : Group). (g.key == key) || (g.key == 0)) groups.now }
{
    groups.iter().position(|g| g.key == key || g.key == 0)
}

// One refusal more in a group; past the sixth its place is not kept.
#[tactic(auto, unfolding(crate::specs::Refusals::one_more, crate::specs::Refusals::with_place))]
fn one_more(g: Group, key: u64, place: u64) -> Group
    ensures { result ≡ S.one_more g key place }
{
    let mut places = g.places;
    if g.count < 6 {
        places[g.count as usize] = place;
    }
    Group {
        key,
        count: sum(g.count, 1),
        places,
    }
}

// Refusals of one number and name at these places, bytes counted from 1. The groups are changed in place: to copy them takes longer than all the rest.
pub fn noted(r: Refusals, number: u8, name: Letters, bytes: &[u64]) -> Refusals
    ensures { result ≡ S.noted_all r number name bytes.now }
{
    let key = key_of(number, name);
    let mut groups = r.groups;
    let mut others = r.others;
    for &place in bytes {
        let Some(i) = group_of(&groups, key) else {
            others = sum(others, 1);
            continue;
        };
        groups[i] = one_more(groups[i], key, place);
    }
    Refusals { groups, others }
}

// The kind of a group: what becomes of it.
#[tactic(auto, unfolding(crate::specs::Refusals::kind_of_key))]
pub fn kind_of(key: u64) -> u8
    ensures { result ≡ S.kind_of_key key }
{
    let name = name_in(key);
    refused_kind(number_of(key), name.first, name.second)
}

// Of a group's count, what changes the drawing.
#[tactic(auto, unfolding(crate::specs::Refusals::harm_of))]
fn harm_of(key: u64, count: u64) -> u64
    ensures { result ≡ S.harm_of key count }
{
    if harmless(kind_of(key)) {
        return 0;
    }
    count
}

// How many refusals change the drawing: those of harmful groups, and all that have no group.
pub fn harm(groups: [Group; GROUPS], others: u64) -> u64
    ensures { result ≡ S.harm_in groups others }
{
    let mut n = others;
    for i in (0..GROUPS).rev() {
        let g = groups[i];
        n = sum(harm_of(g.key, g.count), n);
    }
    n
}

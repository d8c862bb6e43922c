//! The columns whose names are nearest to one that no column has.

ghost use Rattle.std.specs.Prelude.{◌≡◌, ◌≤◌, ◌++◌, ◌∷◌, IfOk, OnOk, drop, length, map, take};
ghost use Rattle.locnum_lines.specs.Nearest.{is_nearer, nearest, with_name};

use std::alloc::{AllocError, Global};
use strsim::generic_levenshtein;

/// How many names a note has at most.
const MOST: usize = 5;

/// Whether a name is nearer to the wanted one than another name is.
fn is_nearer(alloc: Global, wanted: &[u8], name: &[u8], other: &[u8]) -> Result<bool, AllocError>
    ensures { IfOk result (λ r. r ≡ is_nearer wanted.now name.now other.now) }
{
    let distance = generic_levenshtein(alloc, name, wanted)?;
    Ok(distance < generic_levenshtein(alloc, other, wanted)?)
}

/// Behind how many names in order another one belongs.
fn index_for(alloc: Global, wanted: &[u8], name: &[u8], near: &[&[u8]]) -> Result<usize, AllocError>
    ensures within { IfOk result (λ n. n ≤ length near.now) }
    ensures index { IfOk result (λ n. with_name wanted.now name.now (map (λ s. s.now) near.now)
        ≡ take n (map (λ s. s.now) near.now) ++ name.now ∷ drop n (map (λ s. s.now) near.now)) }
{
    let mut index = 0;
    while index < near.len() {
        if is_nearer(alloc, wanted, name, near[index])? {
            return Ok(index);
        }
        index += 1;
    }
    Ok(index)
}

/// Takes a name in among the nearest ones.
fn take_in<'a>(
    alloc: Global,
    wanted: &[u8],
    name: &'a [u8],
    near: &mut Vec<&'a [u8]>,
) -> Result<(), AllocError>
    ensures { OnOk result (map (λ s. s.now) near.new.items
        ≡ take 5 (with_name wanted.now name.now (map (λ s. s.now) near.old.items))) }
{
    let index = index_for(alloc, wanted, name, near)?;
    near.insert(index, name)?;
    near.truncate(MOST);
    Ok(())
}

/// The nearest five names of a header, or all of fewer.
// promise: A note names the five nearest columns, nearest first.
// mutations: nearer_name_of_an_equal_distance, four_nearest_names
#[tactic(auto, unfolding(crate::specs::Nearest::nearest_of))]
pub(crate) fn nearest<'a>(
    alloc: Global,
    wanted: &[u8],
    header: &'a [Vec<u8>],
) -> Result<Vec<&'a [u8]>, AllocError>
    ensures { IfOk result (λ near. map (λ s. s.now) near.items
        ≡ nearest wanted.now (map (λ v. v.items) header.now)) }
{
    let mut near = Vec::new(alloc);
    let mut left = header;
    while let Some((name, rest)) = left.split_first() {
        take_in(alloc, wanted, name, &mut near)?;
        left = rest;
    }
    Ok(near)
}

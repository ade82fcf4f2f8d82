//! What the lines of a program ask to be written.
ghost use Rattle.std.specs.Prelude.{◌≡◌, ◌+◌, ◌*◌, ◌≤◌, ◌++◌, ◌∷◌, [], Some, length, map, slice_get, is_some, IfOk, OnOk, IfSome, IfNone};
ghost use Rattle.std.specs.List.{find, range_with_len};
ghost use Rattle.program_results.specs.Asked.{whole_in, whole_at};
ghost use Rattle.program_results.specs.Placed.{placed_at, nowhere};
ghost use Rattle.program_results.specs.Results.{array_named, array_names};
ghost use Rattle.program_results.specs.EndsView.{piece_file_of, line_files, program_files, line_prints, program_prints};

use crate::file::{File, Print, Source};
use crate::place::Place;
use grid_lang::{Line, Numbered};
use piece_file::{Name, piece_name};
use std::alloc::{AllocError, Global};

// A name of its own.
fn name_of(alloc: Global, text: &str) -> Result<Name, AllocError>
    ensures { IfOk result (λ n. n ≡ text.now) }
{
    Ok(Name::new(String::from_str(alloc, text)?))
}

// One name more.
fn push_name(alloc: Global, names: &mut Vec<Name>, text: &str) -> Result<(), AllocError>
    ensures { OnOk result (names.new.items ≡ names.old.items ++ text.now ∷ []) }
{
    let name = name_of(alloc, text)?;
    names.push(name)?;
    Ok(())
}

// The name that a line gives to an array, if it does.
fn add_name(alloc: Global, names: &mut Vec<Name>, line: &Line) -> Result<(), AllocError>
    ensures { OnOk result (names.new.items ≡ names.old.items ++ array_named line.now) }
{
    match line {
        Line::Array { name, .. } => push_name(alloc, names, name.as_str()),
        Line::Matrix { name, .. } => push_name(alloc, names, name.as_str()),
        _ => Ok(()),
    }
}

/// The names of all arrays, by their numbers.
#[tactic(auto, using(crate::proofs::AskingLaws::names_more, crate::proofs::AskingLaws::names_all))]
pub(crate) fn names_of(alloc: Global, lines: &[Numbered]) -> Result<Vec<Name>, AllocError>
    ensures { IfOk result (λ v. v.items ≡ array_names lines.now) }
{
    let mut names = Vec::new(alloc);
    for numbered in lines {
        add_name(alloc, &mut names, &numbered.line)?;
    }
    Ok(names)
}

// The file of the piece of process `k`.
fn piece_file_at(
    alloc: Global,
    array: u32,
    prefix: &str,
    place: &Place,
    process: u32,
) -> Result<File, AllocError>
    ensures { IfOk result (λ f. f ≡ piece_file_of array place.now prefix.now process) }
{
    let npcol = place.npcol();
    let name = piece_name(alloc, prefix, process / npcol, process % npcol)?;
    Ok(File {
        name: Name::new(name),
        source: Source::Piece { array, process },
    })
}

// The files of all pieces of an ARRAY, by rows of its grid.
#[tactic(auto, using(crate::proofs::AskingLaws::pieces_more))]
fn add_pieces(
    alloc: Global,
    files: &mut Vec<File>,
    array: u32,
    prefix: &str,
    place: &Place,
) -> Result<(), AllocError>
    ensures files { OnOk result (files.new.items ≡ files.old.items ++ map (piece_file_of array place.now prefix.now)
        (range_with_len 0 (place.now.layout.nprow * place.now.layout.npcol))) }
    ensures few { OnOk result (length files.new.items ≤ length files.old.items + 64) }
{
    for process in 0..place.count() {
        files.push(piece_file_at(alloc, array, prefix, place, process)?)?;
    }
    Ok(())
}

// The place of an ARRAY, by its number.
fn place_at(places: &[Option<Place>], array: u32) -> Option<&Place>
    ensures found { IfSome result (λ p. slice_get places.now array ≡ Some (Some p.now)) }
    ensures none { IfNone result (placed_at places.now array ≡ nowhere) }
{
    let Some(held) = places.get(array as usize) else {
        return None;
    };
    match held {
        Some(place) => Some(place),
        None => None,
    }
}

// The files that a line asks for.
#[tactic(auto, using(crate::proofs::AskingLaws::files_same))]
fn add_files(
    alloc: Global,
    files: &mut Vec<File>,
    places: &[Option<Place>],
    line: &Line,
) -> Result<(), AllocError>
    ensures files { OnOk result (files.new.items ≡ files.old.items ++ line_files places.now line.now) }
    ensures few { OnOk result (length files.new.items ≤ length files.old.items + 64) }
{
    match line {
        Line::Save { array, file } => {
            files.push(File {
                name: name_of(alloc, file.as_str())?,
                source: Source::Whole { array: *array },
            })?;
            Ok(())
        }
        Line::SavePieces { array, prefix } => match place_at(places, *array) {
            Some(place) => add_pieces(alloc, files, *array, prefix.as_str(), place),
            None => Ok(()),
        },
        _ => Ok(()),
    }
}

/// The files that all lines ask for, in their order.
#[tactic(auto, using(crate::proofs::AskingLaws::files_none, crate::proofs::AskingLaws::files_more, crate::proofs::AskingLaws::files_all))]
pub(crate) fn files_of(
    alloc: Global,
    lines: &[Numbered],
    places: &[Option<Place>],
) -> Result<Vec<File>, AllocError>
    ensures files { IfOk result (λ v. v.items ≡ program_files places.now lines.now) }
    ensures few { IfOk result (λ v. length v.items ≤ 64 * length lines.now) }
{
    let mut files = Vec::new(alloc);
    for numbered in lines {
        add_files(alloc, &mut files, places, &numbered.line)?;
    }
    Ok(files)
}

// What a line prints, if it does.
fn add_print(prints: &mut Vec<Print>, line: &Line) -> Result<(), AllocError>
    ensures { OnOk result (prints.new.items ≡ prints.old.items ++ line_prints line.now) }
{
    match line {
        Line::PrintArray { array } => {
            prints.push(Print::Array { array: *array })?;
            Ok(())
        }
        Line::PrintMatrix { array, rank } => {
            prints.push(Print::Matrix {
                array: *array,
                rank: *rank,
            })?;
            Ok(())
        }
        _ => Ok(()),
    }
}

/// What all lines print, in their order.
#[tactic(auto, using(crate::proofs::AskingLaws::prints_none, crate::proofs::AskingLaws::prints_more, crate::proofs::AskingLaws::prints_all))]
pub(crate) fn prints_of(alloc: Global, lines: &[Numbered]) -> Result<Vec<Print>, AllocError>
    ensures { IfOk result (λ v. v.items ≡ program_prints lines.now) }
{
    let mut prints = Vec::new(alloc);
    for numbered in lines {
        add_print(&mut prints, &numbered.line)?;
    }
    Ok(prints)
}

// Whether a line saves or prints the whole matrix of an array.
fn is_whole(line: &Line, array: usize) -> bool
    ensures { result ≡ whole_in array line.now }
{
    match line {
        Line::Save { array: whole, .. } => *whole as usize == array,
        Line::PrintArray { array: whole } => *whole as usize == array,
        _ => false,
    }
}

/// Whether a line saves or prints the whole matrix of an array.
pub(crate) fn asks_for_whole(lines: &[Numbered], array: usize) -> bool
    ensures { result ≡ is_some (find (whole_at array) lines.now) }
{
    for k in 0..lines.len() {
        if is_whole(&lines[k].line, array) {
            return true;
        }
    }
    false
}

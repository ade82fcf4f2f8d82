//! The form of the line that tells a piece's head.
ghost use Rattle.std.specs.Prelude.{◌≡◌, ◌<◌, [], ◌∷◌, List, length, pos, slice_index_or, slice_set, MatchOption, None, Some, IfSome, IfNone, OnSome, bytes_eq};
ghost use Rattle.std.specs.Option.{option_map};
ghost use Rattle.line_text.specs.Words.{words};
ghost use Rattle.line_text.specs.Numbers.{signed_number};
ghost use Rattle.mm_grammar.specs.Parts.{starts_blank};
ghost use Rattle.piece_grammar.specs.Desc.{desc_word, in_32_bits, numbers_of, desc_numbered, desc_if_all, desc_words, desc_of};
ghost use Rattle.piece_file.specs.Asking.{desc_view};

use line_text::{is_blank_byte, next_word, read_i32};

const NUMBERS: usize = 11;

// The numbers of the line `%DESC P Q p q M N MB NB RSRC CSRC LLD`.
#[derive(Clone, Copy)]
pub(crate) struct Desc {
    pub(crate) nprow: i32,
    pub(crate) npcol: i32,
    pub(crate) prow: i32,
    pub(crate) pcol: i32,
    pub(crate) m: i32,
    pub(crate) n: i32,
    pub(crate) mb: i32,
    pub(crate) nb: i32,
    pub(crate) rsrc: i32,
    pub(crate) csrc: i32,
    pub(crate) lld: i32,
}

// Sets the number at a place.
fn set_number(numbers: &mut [i32], place: usize, number: i32)
    requires { place < length numbers.old }
    ensures { numbers.new ≡ slice_set numbers.old place number }
{
    numbers[place] = number;
}

// The eleven integers of a line that has no other words.
#[tactic(auto, using(crate::proofs::DescLineSteps::none_read, crate::proofs::DescLineSteps::one_read, crate::proofs::DescLineSteps::too_few, crate::proofs::DescLineSteps::no_number, crate::proofs::DescLineSteps::too_many, crate::proofs::DescLineSteps::all_read))]
fn eleven_integers(line: &[u8]) -> Option<[i32; NUMBERS]>
    ensures { MatchOption result (desc_if_all (numbers_of (words line.now)) ≡ None)
        (λ numbers. numbers_of (words line.now) ≡ Some numbers) }
{
    let mut numbers = [0; NUMBERS];
    let mut rest = line;
    for k in 0..NUMBERS {
        let (word, behind) = next_word(rest)?;
        set_number(&mut numbers, k, read_i32(word)?);
        rest = behind;
    }
    match next_word(rest) {
        Some(_) => None,
        None => Some(numbers),
    }
}

// The numbers in the order of the line.
fn numbered(numbers: [i32; NUMBERS]) -> Desc
    ensures { Some (desc_view result) ≡ desc_numbered numbers }
{
    let [nprow, npcol, prow, pcol, m, n, mb, nb, rsrc, csrc, lld] = numbers;
    Desc {
        nprow,
        npcol,
        prow,
        pcol,
        m,
        n,
        mb,
        nb,
        rsrc,
        csrc,
        lld,
    }
}

// Whether a word is the mark of such lines.
#[tactic(auto, unfolding(piece_grammar::specs::Desc::desc_word))]
fn is_mark(word: &[u8]) -> bool
    ensures { result ≡ bytes_eq word.now desc_word }
{
    word == b"%DESC".as_slice()
}

fn starts_with_blank(line: &[u8]) -> bool
    ensures { result ≡ starts_blank line.now }
{
    match line {
        [first, ..] => is_blank_byte(*first),
        [] => false,
    }
}

// The numbers of the words of a line, where the first is the mark.
#[tactic(auto, unfolding(piece_grammar::specs::Desc::desc_words))]
fn marked_numbers(line: &[u8]) -> Option<Desc>
    ensures { option_map desc_view result ≡ desc_words (words line.now) }
{
    let (mark, rest) = next_word(line)?;
    if !is_mark(mark) {
        return None;
    }
    Some(numbered(eleven_integers(rest)?))
}

/// The numbers of a line that starts at its first byte with the word `%DESC` and has eleven integers of 32 bits after it.
pub(crate) fn read_desc_line(line: &[u8]) -> Option<Desc>
    ensures { option_map desc_view result ≡ desc_of line.now }
{
    if starts_with_blank(line) {
        return None;
    }
    marked_numbers(line)
}

//! What a rank gathers in a combine, and how it travels.

ghost use Rattle.std.specs.Prelude.{◌≡◌, ◌≤◌, ◌+◌, ◌++◌, ◌*◌, length, take, map};
ghost use Rattle.pack_words.specs.Accumulators.{values_of_held, words_of_held, held_message, message_words, joined_with, added_with, joined_by, has_places, replaced_by_pairs, replaced_by_values, replaced_by};

use crate::fold_kind::FoldKind;
use fold_ops::{AbsMax, AbsMin, Combine, Held, SumMod};

// The values of the elements.
fn write_values(held: &[Held], out: &mut [i32])
    requires { length out.old ≡ length held.now }
    ensures { out.new ≡ values_of_held held.now }
{
    for k in 0..held.len() {
        out[k] = held[k].value;
    }
}

// The places of the elements, each as the i32 of the same 32 bits.
fn write_places(held: &[Held], out: &mut [i32])
    requires { length out.old ≡ length held.now }
    ensures { out.new ≡ words_of_held held.now }
{
    for k in 0..held.len() {
        out[k] = held[k].place.cast_signed();
    }
}

// All values, and then all places.
fn write_pairs(held: &[Held], out: &mut [i32])
    requires { length out.old ≡ 2 * length held.now }
    ensures { out.new ≡ values_of_held held.now ++ words_of_held held.now }
{
    let len = held.len();
    let (values, places) = out.split_at_mut(len);
    write_values(held, values);
    write_places(held, places);
}

/// The message of the first `len` elements: all values, and then with `pairs` all places.
pub fn write_message(held: &[Held], len: u32, pairs: bool, out: &mut [i32])
    requires held { len ≤ length held.now }
    requires out { length out.old ≡ message_words pairs len }
    ensures { out.new ≡ held_message pairs len held.now }
{
    let first = &held[..len as usize];
    if pairs {
        write_pairs(first, out);
    } else {
        write_values(first, out);
    }
}

// Joins the first `len` elements with those of a message of values and places, one by one.
fn join_pairs<C: Combine>(held: &mut [Held], len: usize, words: &[i32])
    requires held { len ≤ length held.old }
    requires words { length words.now ≡ 2 * len }
    ensures { held.new ≡ joined_with C.joined len held.old words.now }
{
    for k in 0..len {
        let other = Held {
            value: words[k],
            place: words[len + k].cast_unsigned(),
        };
        held[k] = C::join(held[k], other);
    }
}

// Adds those of a message of values only to the first `len` elements, one by one.
fn add_values(held: &mut [Held], len: usize, words: &[i32])
    requires held { len ≤ length held.old }
    requires words { length words.now ≡ len }
    ensures { held.new ≡ added_with len held.old words.now }
{
    for k in 0..len {
        let other = Held {
            value: words[k],
            place: 0,
        };
        held[k] = SumMod::join(held[k], other);
    }
}

/// Joins the first `len` elements with those of a message, one by one: own first, then the message's.
pub fn join_message(held: &mut [Held], len: u32, fold: FoldKind, words: &[i32])
    requires held { len ≤ length held.old }
    requires words { length words.now ≡ message_words (has_places fold) len }
    ensures { held.new ≡ joined_by fold len held.old words.now }
{
    match fold {
        FoldKind::Sum => add_values(held, len as usize, words),
        FoldKind::AbsMax => join_pairs::<AbsMax>(held, len as usize, words),
        FoldKind::AbsMin => join_pairs::<AbsMin>(held, len as usize, words),
    }
}

// Puts the elements of a message of values and places in the place of the first `len`.
fn replace_pairs(held: &mut [Held], len: usize, words: &[i32])
    requires held { len ≤ length held.old }
    requires words { length words.now ≡ 2 * len }
    ensures { held.new ≡ replaced_by_pairs len held.old words.now }
{
    for k in 0..len {
        held[k] = Held {
            value: words[k],
            place: words[len + k].cast_unsigned(),
        };
    }
}

// The same for a message of values only.
fn replace_values(held: &mut [Held], len: usize, words: &[i32])
    requires held { len ≤ length held.old }
    requires words { length words.now ≡ len }
    ensures { held.new ≡ replaced_by_values len held.old words.now }
{
    for k in 0..len {
        held[k] = Held {
            value: words[k],
            place: 0,
        };
    }
}

/// Puts the elements of a message in the place of the first `len`, with their places where it has `pairs`.
pub fn replace_message(held: &mut [Held], len: u32, pairs: bool, words: &[i32])
    requires held { len ≤ length held.old }
    requires words { length words.now ≡ message_words pairs len }
    ensures { held.new ≡ replaced_by pairs len held.old words.now }
{
    if pairs {
        replace_pairs(held, len as usize, words);
    } else {
        replace_values(held, len as usize, words);
    }
}

//! The laws, for those that build on them.

ghost use Rattle.std.specs.Prelude.{◌≡◌, ◌+◌, ◌*◌, ℕ, length, count_by};
ghost use Rattle.mr2d.specs.Moves.{Move};
ghost use Rattle.mr2d.specs.Plans.{Rectangles, pairs, sends, stays, words_sent, operations};
ghost use Rattle.move_numbers.specs.MoveNumbers.{move_messages, move_copies, move_words, AreTouching};

/// The messages, copies, words and operations that a move's rectangles have are those of its elements.
pub fn numbers_by_elements()
    ensures messages { (mv : Move) (ranks : ℕ) (meets : Rectangles) → AreTouching mv ranks meets →
        count_by (λ p. sends meets p.0 p.1) (pairs ranks) ≡ move_messages mv ranks }
    ensures copies { (mv : Move) (ranks : ℕ) (meets : Rectangles) → AreTouching mv ranks meets →
        count_by (λ p. stays meets p.0 p.1) (pairs ranks) ≡ move_copies mv ranks }
    ensures words { (mv : Move) (ranks : ℕ) (meets : Rectangles) → AreTouching mv ranks meets →
        words_sent mv meets (pairs ranks) ≡ move_words mv ranks }
    ensures operations { (mv : Move) (ranks : ℕ) (meets : Rectangles) → AreTouching mv ranks meets →
        length (operations mv meets ranks) ≡ 2 * move_messages mv ranks + move_copies mv ranks }
{}

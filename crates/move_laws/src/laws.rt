//! Laws of whole matrices that are moved.

ghost use Rattle.std.specs.Prelude.{◌≡◌, ◌<◌, ◌*◌, ℕ, List, length};
ghost use Rattle.index_tools.specs.Home.{Layout};
ghost use Rattle.proc_grid.specs.Grid.{Grid};
ghost use Rattle.pack_words.specs.LocalCells.{LocalCells};
ghost use Rattle.pack_words.specs.GridState.{GridState};
ghost use Rattle.mm_grammar.specs.Matrix.{Matrix};
ghost use Rattle.spread_cells.specs.Joining.{joined};
ghost use Rattle.spread_cells.specs.JoiningBack.{local_array, local_arrays};
ghost use Rattle.mr2d.specs.Homes.{SpreadArray, rank_of, cells_of};
ghost use Rattle.mr2d.specs.Moves.{plain_move};
ghost use Rattle.move_laws.specs.WholeMoves.{piece_array, whole_move, IsMoveStart, IsPieceStart};
ghost use Rattle.move_laws.specs.Ends.{file_layout, file_cells, file_array, IsSplitStart, IsJoinStart};
ghost use Rattle.move_laws.specs.Starts.{file_grid, piece_grid, own_array, arrays_on, split_state, split_move, join_state, join_move, CanSplit, CanJoin};

/// A matrix that lies spread over one grid, moved whole to another: each process there has the piece that `split` saves.
pub fn moved_is_split()
    ensures { (m : Matrix) (a b : SpreadArray) (s : GridState) → IsMoveStart m a b s.arrays →
        (p q : ℕ) → p < b.layout.nprow → q < b.layout.npcol →
        cells_of (plain_move (whole_move m a b) s).arrays (rank_of b.grid p q) b.array ≡ local_array m b.layout p q }
{}

/// Pieces that are moved to another distribution are the pieces of a split of the joined matrix.
pub fn moved_is_joined_and_split()
    ensures { (pieces : List LocalCells) (a b : SpreadArray) (s : GridState) → IsPieceStart pieces a b s.arrays →
        (p q : ℕ) → p < b.layout.nprow → q < b.layout.npcol → let m = joined a.layout pieces in
        cells_of (plain_move (whole_move m a b) s).arrays (rank_of b.grid p q) b.array ≡ local_array m b.layout p q }
{}

/// The one piece of a 1 by 1 grid is the whole matrix by columns.
pub fn one_piece()
    ensures { (m : Matrix) → length m.values ≡ m.rows * m.columns →
        local_array m (file_layout m) 0 0 ≡ file_cells m }
{}

/// The pieces of a split are what the plain move makes of the whole matrix on a 1 by 1 grid.
pub fn split_is_a_move()
    ensures each { (m : Matrix) (one : Grid) (a : ℕ) (b : SpreadArray) (s : GridState) →
        IsSplitStart m one a b s.arrays → (p q : ℕ) → p < b.layout.nprow → q < b.layout.npcol →
        cells_of (plain_move (whole_move m (file_array a one m) b) s).arrays (rank_of b.grid p q) b.array ≡
        local_array m b.layout p q }
    // The state that `split` stands for is such a one.
    ensures start { (m : Matrix) (l : Layout) → CanSplit m l →
        IsSplitStart m file_grid 0 (piece_array 1 (piece_grid l) l) (split_state m l).arrays }
    ensures pieces { (m : Matrix) (l : Layout) → CanSplit m l →
        arrays_on 1 (plain_move (split_move m l) (split_state m l)) ≡ local_arrays m l }
{}

/// The whole matrix of a join is what the plain move makes of the pieces on a 1 by 1 grid.
pub fn join_is_a_move()
    ensures any { (pieces : List LocalCells) (a : SpreadArray) (one : Grid) (b : ℕ) (s : GridState) →
        IsJoinStart pieces a one b s.arrays → let m = joined a.layout pieces in
        cells_of (plain_move (whole_move m a (file_array b one m)) s).arrays (rank_of one 0 0) b ≡ file_cells m }
    // The state that `join` stands for is such a one.
    ensures start { (l : Layout) (pieces : List LocalCells) → CanJoin l pieces →
        IsJoinStart pieces (own_array 0 (piece_grid l) l pieces) file_grid 1 (join_state l pieces).arrays }
    ensures whole { (l : Layout) (pieces : List LocalCells) → CanJoin l pieces →
        cells_of (plain_move (join_move l pieces) (join_state l pieces)).arrays 0 1 ≡ file_cells (joined l pieces) }
{}

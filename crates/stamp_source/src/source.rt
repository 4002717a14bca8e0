//! The source of numbers.
ghost use Rattle.std.specs.Prelude.{◌≡◌, ◌+◌, ◌*◌, ◌^◌, ◌<◌, ◌≤◌, [], ◌∷◌, ◌++◌, All, IfOk, vec_len};

use crate::dealing::{deal, gather};
use crate::pass::StampPass;
use crate::rule::{Board, Draw, NEXT, Opening};
use atomic_table::Table;
use std::alloc::{AllocError, Global};

/// A row of numbers, of which each is drawn once.
#[derive(Drop)]
pub struct StampSource {
    pub(crate) board: Board,
    ghost sized: { (board.shared.table_id.words ≡ 1) × (board.shared.table_id.slots ≡ 0) },
    ghost some: { 0 < board.shared.key.passes },
}

impl StampSource {
    ghost use Rattle.stamp_source.specs.Numbers.{AllBelow};
    ghost use Rattle.stamp_source.specs.Passes.{about, about_pass, numbers, draws_left, source_id, IsPassOf, IsNewPass, AreAll, DrewEachOnce};

    /// A source whose first number is `first`, and its passes, of which each may draw `each` numbers.
    pub fn new(
        alloc: Global,
        first: u64,
        each: u64,
        passes: u32,
    ) -> Result<(StampSource, Vec<StampPass>), AllocError>
        requires passes { (0 < passes) × (passes ≤ 16) }
        requires first { first ≤ 2 ^ 62 }
        requires each { each ≤ 2 ^ 40 }
        ensures source { IfOk result (λ r. about r.0 ≡ record { first = first; each = each; passes = passes }) }
        ensures count { IfOk result (λ r. vec_len r.1 ≡ passes) }
        ensures each { IfOk result (λ r. All (IsNewPass (source_id r.0) (about r.0)) r.1.items) }
    {
        let about = Opening {
            first,
            each,
            passes: u64::from(passes),
        };
        let mut dealt = Vec::with_capacity(alloc, passes as usize)?;
        let (board, seat): (Board, _) = Table::of_words(alloc, &[first], &about)?;
        deal(&board.shared, seat, about, &mut dealt);
        Ok((StampSource { board }, dealt))
    }

    /// A number that no pass drew before: above all that this one drew, and in the source's range.
    pub fn draw(&self, pass: &mut StampPass) -> u64
        requires pass { IsPassOf self.now pass.old }
        requires left { 0 < draws_left pass.old }
        ensures pass { IsPassOf self.now pass.new }
        ensures about { about_pass pass.new ≡ about_pass pass.old }
        ensures left { draws_left pass.new + 1 ≡ draws_left pass.old }
        ensures drawn { numbers pass.new ≡ numbers pass.old ++ result ∷ [] }
        ensures above { AllBelow result (numbers pass.old) }
        ensures from_first { (about_pass pass.old).first ≤ result }
        ensures below_end { result < (about_pass pass.old).first + (about_pass pass.old).each * (about_pass pass.old).passes }
    {
        let number = self.board.shared.fetch_add::<Draw>(&mut pass.seat, NEXT, 1);
        pass.left -= 1;
        number
    }

    /// Ends the source, once all passes are back: no number was drawn by two of them.
    pub fn close(self, passes: Vec<StampPass>)
        requires passes { AreAll self passes.items }
        ensures once { DrewEachOnce (about self).first passes.items }
    {
        let StampSource { board } = self;
        let seat = gather(&board.shared, passes);
        board.close_with(seat).free();
    }
}

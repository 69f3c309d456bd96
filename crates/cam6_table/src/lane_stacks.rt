//! The stacks of all lanes. A word is done in some lanes, and in the others every stack stays.
ghost use Rattle.std.specs.Prelude.{◌≡◌, ◌≢◌, ◌<◌, ◌≤◌, ◌+◌, ◌-◌, OnOk, OnErr, IfOk};
ghost use Rattle.std.specs.Prelude.{◌++◌, length, slice_index, slice_index_or, [], ℕ};
ghost use Rattle.cam6_table.specs.declared.lane_values.TheConstants.{LANES};
ghost use Rattle.cam6_table.specs.declared.lane_stacks.TheConstants.{ROWS};
ghost use Rattle.cam6_table.specs.Internal.LaneValues.{stack_word};
ghost use Rattle.cam6_table.specs.Limits.{max_values};
ghost use Rattle.cam6_table.specs.Internal.Lanes.{column, value_at, stack_at, Stands, Holds};
ghost use Rattle.cam6_table.specs.Internal.Lanes.{Pushes, StayOut, StayBelow, LeavesIn};
ghost use Rattle.cam6_table.specs.Internal.Sets.{IsIn, IsOut};

use crate::floors::Floors;
use crate::lane_values::{LANES, LaneValues, Merge, put_value, zeros};
use crate::sets::{LaneMask, LaneSet, chosen, chosen_from};
use crate::spans::Span;
use crate::stacks::Stack;
use cam6_forth::StackWord;

/// The lanes of a set can't go on together: an instruction can't be done in all of them, or they
/// can part at it. Nothing was done.
#[derive(Clone, Copy, Debug, PartialEq, Eq)]
pub struct NotInAllLanes;

/// Rows of values. A stack of 32 can begin at any of the first 33.
pub const ROWS: usize = 64;

/// Rows of values, the lowest first, and the row at which the stacks of the lanes at work end.
/// What a row has below or above a lane's stack, or in its gap, doesn't matter.
#[derive(Drop)]
pub struct Stacks {
    pub rows: [LaneValues; ROWS],
    pub len: usize,
}

impl Stacks {
    /// Makes empty stacks in all lanes, with 0 in every row.
    pub fn new() -> Stacks {
        Stacks {
            rows: [[0; LANES]; ROWS],
            len: 0,
        }
    }

    /// Returns the stack of a lane, counted from 0. `top` is the row after its top value. `floors`
    /// must say where the stack lies.
    pub fn of_lane(&self, floors: &Floors, lane: usize, top: usize) -> Stack
        requires lane { lane < LANES }
        requires stands { Stands lane top floors.now }
        ensures { result ≡ stack_at lane self.now.rows floors.now top }
    {
        let floor = usize::from(floors.rows[lane]);
        let end = usize::from(floors.ends[lane]);
        let width = usize::from(floors.widths[lane]);
        let mut stack = Stack::new();
        self.put_rows(lane, floor - width, end - width, &mut stack);
        self.put_rows(lane, end, top, &mut stack);
        stack
    }

    /// Pushes a lane's values from row `from` to before row `to` onto `stack`, the lowest row
    /// first. The stack must have room for all of them.
    fn put_rows(&self, lane: usize, from: usize, to: usize, stack: &mut Stack)
        requires lane { lane < LANES }
        requires up { from ≤ to }
        requires within { to ≤ ROWS }
        requires room { length stack.old + to ≤ from + max_values }
        ensures values { stack.new ≡ column lane self.now.rows from to ++ stack.old }
        ensures length { length stack.new + from ≡ length stack.old + to }
    {
        for k in from..to {
            stack.push_unchecked(self.rows[k][lane]);
        }
    }

    /// Returns `NotInAllLanes` if fewer than `count` rows lie between the span's floor and the top.
    /// From the floor on, all values of the lanes are in place.
    #[inline(always)]
    pub fn need_values(&self, span: Span, count: usize) -> Result<(), NotInAllLanes>
        requires few { count ≤ ROWS }
        requires holds { Holds span self.now.len }
        ensures { IfOk result (λ _. count + span.floor ≤ self.now.len) }
    {
        if count + span.floor <= self.len {
            Ok(())
        } else {
            Err(NotInAllLanes)
        }
    }

    /// Returns `NotInAllLanes` if, by the span, a lane's stack may have no room for one more value.
    /// That is if the stacks end at row `span.room` or above.
    #[inline(always)]
    fn need_room(&self, span: Span) -> Result<(), NotInAllLanes>
        ensures { IfOk result (λ _. self.now.len < span.room) }
    {
        if self.len < span.room {
            Ok(())
        } else {
            Err(NotInAllLanes)
        }
    }

    /// Lends the values of all lanes at a depth below the top, from 1 to `len`. The top values are
    /// at depth 1.
    #[inline(always)]
    pub fn at_depth(&self, depth: usize) -> &LaneValues
        requires some { 0 < depth }
        requires within { depth ≤ self.now.len }
        requires limit { self.now.len ≤ ROWS }
        ensures { result.now ≡ slice_index_or self.now.rows (self.now.len - depth) [] }
    {
        &self.rows[self.len - depth]
    }

    /// Pushes a value in each lane of a set, without a check for room. There must be a row above
    /// the top. In other lanes that row stays as it was.
    #[inline(always)]
    fn push_unchecked(&mut self, set: &LaneSet, values: &LaneValues)
        requires room { self.old.len < ROWS }
        ensures high { self.new.len ≡ self.old.len + 1 }
        ensures put { Pushes set.now.mask values.now self.old self.new }
        ensures others { StayOut set.now.mask self.old self.new }
        ensures below { StayBelow self.old.len self.old self.new }
    {
        self.rows[self.len] = set.chosen(values, &self.rows[self.len]);
        self.len += 1;
    }

    /// Copies row `from` over row `to` in each lane of a set whose entry in `ends` is at most
    /// `from`. No entry of a lane of the set is above `highest`.
    #[inline(always)]
    pub fn copy(
        &mut self,
        set: &LaneMask,
        ends: &LaneValues,
        highest: usize,
        from: usize,
        to: usize,
    )
        requires highest { (lane : ℕ) → lane < LANES → IsIn set.now lane →
            slice_index ends.now lane ≤ highest }
        requires from { from < ROWS }
        requires to { to < ROWS }
        ensures len { self.new.len ≡ self.old.len }
        ensures inside { (lane : ℕ) → lane < LANES → IsIn set.now lane →
            slice_index ends.now lane ≤ from →
            value_at lane self.new.rows to ≡ value_at lane self.old.rows from }
        ensures under { (lane : ℕ) → lane < LANES → IsIn set.now lane →
            from < slice_index ends.now lane →
            value_at lane self.new.rows to ≡ value_at lane self.old.rows to }
        ensures others { (lane row : ℕ) → row ≢ to →
            value_at lane self.new.rows row ≡ value_at lane self.old.rows row }
        ensures outside { (lane : ℕ) → lane < LANES → IsOut set.now lane →
            value_at lane self.new.rows to ≡ value_at lane self.old.rows to }
    {
        let row = self.rows[from];
        self.rows[to] = if from >= highest {
            chosen(set, &row, &self.rows[to])
        } else {
            chosen_from(set, ends, from as u16, &row, &self.rows[to])
        };
    }

    /// Copies a lane's values to rows `from` to before `to`, where they are in place. Before, they
    /// lie `width` rows below, and `width` is at most `from`.
    pub fn fill(&mut self, lane: usize, width: usize, from: usize, to: usize)
        requires lane { lane < LANES }
        requires low { width ≤ from }
        requires up { from ≤ to }
        requires within { to ≤ ROWS }
        ensures len { self.new.len ≡ self.old.len }
        ensures filled { (row : ℕ) → from ≤ row → row < to →
            value_at lane self.new.rows row ≡ value_at lane self.old.rows (row - width) }
        ensures below { (row : ℕ) → row < from →
            value_at lane self.new.rows row ≡ value_at lane self.old.rows row }
        ensures above { (row : ℕ) → to ≤ row →
            value_at lane self.new.rows row ≡ value_at lane self.old.rows row }
        ensures others { (other row : ℕ) → other ≢ lane →
            value_at other self.new.rows row ≡ value_at other self.old.rows row }
    {
        let mut next = to;
        while next > from {
            next -= 1;
            let value = self.rows[next - width][lane];
            put_value(&mut self.rows[next], lane, value);
        }
    }

    /// Pushes a value in each lane of a set. Returns `NotInAllLanes`, and changes nothing, if by
    /// the span a stack may have no room.
    #[inline(always)]
    pub fn push(
        &mut self,
        set: &LaneSet,
        span: Span,
        values: &LaneValues,
    ) -> Result<(), NotInAllLanes>
        requires holds { Holds span self.old.len }
        ensures room { OnOk result (self.old.len < span.room) }
        ensures ok { OnOk result (Pushes set.now.mask values.now self.old self.new) }
        ensures holds { Holds span self.new.len }
        ensures others { StayOut set.now.mask self.old self.new }
        ensures below { StayBelow span.floor self.old self.new }
        ensures err { OnErr result (self.new ≡ self.old) }
    {
        self.need_room(span)?;
        self.push_unchecked(set, values);
        Ok(())
    }

    /// Does a stack word in all lanes of a set. Returns `NotInAllLanes`, and changes nothing, in
    /// two cases: by the span a stack may lack a value or room, or a result is out of range in a
    /// lane of the set.
    pub fn apply(&mut self, set: &LaneSet, span: Span, word: StackWord) -> Result<(), NotInAllLanes>
        requires holds { Holds span self.old.len }
        ensures { LeavesIn set.now.mask span word self.old self.new result }
    {
        match word {
            StackWord::Dup => self.dup(set, span),
            StackWord::Drop => self.drop_top(set, span),
            StackWord::Swap => self.swap(set, span),
            StackWord::Over => self.over(set, span),
            StackWord::Rot => self.rot(set, span),
            StackWord::Plus => self.apply_binary(set, span, Merge::Plus),
            StackWord::Minus => self.apply_binary(set, span, Merge::Minus),
            StackWord::Times => self.apply_binary(set, span, Merge::Times),
            StackWord::And => self.apply_binary(set, span, Merge::And),
            StackWord::Or => self.apply_binary(set, span, Merge::Or),
            StackWord::Xor => self.apply_binary(set, span, Merge::Xor),
            StackWord::IsZero => self.zero_equals(set, span),
            StackWord::Equal => self.apply_binary(set, span, Merge::Equal),
            StackWord::Less => self.apply_binary(set, span, Merge::Less),
            StackWord::Greater => self.apply_binary(set, span, Merge::Greater),
        }
    }

    /// Pushes a copy of each lane's top value. Returns `NotInAllLanes`, and changes nothing, if by
    /// the span a stack may lack a value or room.
    fn dup(&mut self, set: &LaneSet, span: Span) -> Result<(), NotInAllLanes>
        requires holds { Holds span self.old.len }
        ensures { LeavesIn set.now.mask span StackWord.Dup self.old self.new result }
    {
        self.need_values(span, 1)?;
        self.need_room(span)?;
        let a = *self.at_depth(1);
        self.push_unchecked(set, &a);
        Ok(())
    }

    /// Takes the top values off. Returns `NotInAllLanes`, and changes nothing, if by the span a
    /// stack may lack a value. No row changes, so the set isn't needed.
    fn drop_top(&mut self, _set: &LaneSet, span: Span) -> Result<(), NotInAllLanes>
        requires holds { Holds span self.old.len }
        ensures { LeavesIn _set.now.mask span StackWord.Drop self.old self.new result }
    {
        self.need_values(span, 1)?;
        self.len -= 1;
        Ok(())
    }

    /// Exchanges each lane's top value with the one below it. Returns `NotInAllLanes`, and changes
    /// nothing, if by the span a stack may lack a value.
    fn swap(&mut self, set: &LaneSet, span: Span) -> Result<(), NotInAllLanes>
        requires holds { Holds span self.old.len }
        ensures { LeavesIn set.now.mask span StackWord.Swap self.old self.new result }
    {
        self.need_values(span, 2)?;
        let b = *self.at_depth(1);
        let a = *self.at_depth(2);
        self.len -= 2;
        self.push_unchecked(set, &b);
        self.push_unchecked(set, &a);
        Ok(())
    }

    /// Pushes a copy of each lane's value below the top one. Returns `NotInAllLanes`, and changes
    /// nothing, if by the span a stack may lack a value or room.
    fn over(&mut self, set: &LaneSet, span: Span) -> Result<(), NotInAllLanes>
        requires holds { Holds span self.old.len }
        ensures { LeavesIn set.now.mask span StackWord.Over self.old self.new result }
    {
        self.need_values(span, 2)?;
        self.need_room(span)?;
        let a = *self.at_depth(2);
        self.push_unchecked(set, &a);
        Ok(())
    }

    /// Moves each lane's third value to the top, over the two that were above it. Returns
    /// `NotInAllLanes`, and changes nothing, if by the span a stack may lack a value.
    fn rot(&mut self, set: &LaneSet, span: Span) -> Result<(), NotInAllLanes>
        requires holds { Holds span self.old.len }
        ensures { LeavesIn set.now.mask span StackWord.Rot self.old self.new result }
    {
        self.need_values(span, 3)?;
        let c = *self.at_depth(1);
        let b = *self.at_depth(2);
        let a = *self.at_depth(3);
        self.len -= 3;
        self.push_unchecked(set, &b);
        self.push_unchecked(set, &c);
        self.push_unchecked(set, &a);
        Ok(())
    }

    /// Replaces each lane's top value by 1 if it is 0, and else by 0. Returns `NotInAllLanes`, and
    /// changes nothing, if by the span a stack may lack a value.
    fn zero_equals(&mut self, set: &LaneSet, span: Span) -> Result<(), NotInAllLanes>
        requires holds { Holds span self.old.len }
        ensures { LeavesIn set.now.mask span StackWord.IsZero self.old self.new result }
    {
        self.need_values(span, 1)?;
        let zeros = zeros(self.at_depth(1));
        self.len -= 1;
        self.push_unchecked(set, &zeros);
        Ok(())
    }

    /// Does a word that makes one value of the top two, in all lanes of a set. Returns
    /// `NotInAllLanes`, and changes nothing, in two cases: by the span a stack may lack a value, or
    /// a result is out of range in a lane of the set.
    #[inline(always)]
    fn apply_binary(&mut self, set: &LaneSet, span: Span, merge: Merge) -> Result<(), NotInAllLanes>
        requires holds { Holds span self.old.len }
        ensures { LeavesIn set.now.mask span (stack_word merge) self.old self.new result }
    {
        self.need_values(span, 2)?;
        let b = self.at_depth(1);
        let a = self.at_depth(2);
        if !merge.fits_in(set, a, b) {
            return Err(NotInAllLanes);
        }
        let left = merge.of_all(a, b);
        self.len -= 2;
        self.push_unchecked(set, &left);
        Ok(())
    }
}

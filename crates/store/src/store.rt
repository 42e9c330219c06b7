//! What a store of the desk's tables owes.
ghost use Rattle.std.specs.Prelude.{◌≡◌, ◌≤◌, Err, IfOk};
ghost use Rattle.std.specs.Bool.{IsTrue};
ghost use Rattle.std.specs.Result.{result_err};
ghost use Rattle.points.specs.Run.{IsRun};
ghost use Rattle.store.specs.Asked.{IsBrokenRow, IsBrokenRun, IsSomeBroken, Judges};
ghost use Rattle.store.specs.Asked.Asked.{AnyName, ArrayOf, EntriesOf, LastTick, NextOf, ShownBy};
ghost use Rattle.store.specs.Change.{CanStand};
ghost use Rattle.store.specs.declared.fault.StoreFault.TheVariants.{BadRow};
ghost use Rattle.store.specs.Listed.{AreEntries, AreNames};
ghost use Rattle.store.specs.Standing.{Commits, Reads, Standing};

use crate::change::Change;
use crate::fault::StoreFault;
use crate::names::Names;
use dates::Entry;
use points::{CommandRow, Name, NumberedRow, PriorityArray};

/// A store of the desk's tables: places, next numbers, rows of commands, shown values, imported entries and
/// the last tick.
///
/// A read answers what the tables hold and changes nothing. A commit makes a whole change or none of it.
/// Whenever the program stops, a store that is not shut has what its last commit left.
pub trait Store {
    ghost standing: { Self → Standing };

    /// The next number of a panel: 1 where nothing is kept of it.
    fn panel_next(&mut self, panel: &Name) -> Result<u64, StoreFault>
        ensures reads { Reads (result_err result) (standing self.old) (standing self.new) }
        ensures value { (standing self.new).is_honest → IfOk result (λ next. next ≡ (standing self.old).content.tables.next panel.now) }
        ensures judges { (standing self.new).is_honest → Judges (IsTrue ((standing self.old).cannot_stand (NextOf panel.now))) (result_err result) };

    /// The row under a number of a panel, if one is kept.
    fn command(&mut self, panel: &Name, number: u64) -> Result<Option<CommandRow>, StoreFault>
        ensures reads { Reads (result_err result) (standing self.old) (standing self.new) }
        ensures value { (standing self.new).is_honest → IfOk result (λ row. row ≡ (standing self.old).content.tables.row panel.now number) }
        ensures judges { (standing self.new).is_honest → Judges (IsBrokenRow (standing self.old).cannot_stand panel.now number) (result_err result) };

    /// The rows of a panel at the numbers from `from` up to and without `upto`, then those from `upto` on
    /// that follow without gap, by rising number.
    fn commands_run(
        &mut self,
        panel: &Name,
        from: u64,
        upto: u64,
    ) -> Result<Vec<NumberedRow>, StoreFault>
        requires { from ≤ upto }
        ensures reads { Reads (result_err result) (standing self.old) (standing self.new) }
        ensures value { (standing self.new).is_honest → IfOk result (λ run. IsRun ((standing self.old).content.tables.row panel.now) from upto run.items) }
        ensures judges { (standing self.new).is_honest
            → Judges (IsBrokenRun (standing self.old).cannot_stand ((standing self.old).content.tables.row panel.now) panel.now from upto) (result_err result) };

    /// The priority array of a point: without values where nothing is kept of it.
    fn array(&mut self, point: &Name) -> Result<PriorityArray, StoreFault>
        ensures reads { Reads (result_err result) (standing self.old) (standing self.new) }
        ensures value { (standing self.new).is_honest → IfOk result (λ array. array ≡ (standing self.old).content.tables.places point.now) }
        ensures judges { (standing self.new).is_honest → Judges (IsTrue ((standing self.old).cannot_stand (ArrayOf point.now))) (result_err result) };

    /// What a schedule shows: a value or NULL, or nothing where it is quiet.
    fn shown(&mut self, schedule: &Name) -> Result<Option<Option<i64>>, StoreFault>
        ensures reads { Reads (result_err result) (standing self.old) (standing self.new) }
        ensures value { (standing self.new).is_honest → IfOk result (λ shown. shown ≡ (standing self.old).content.tables.shown schedule.now) }
        ensures judges { (standing self.new).is_honest → Judges (IsTrue ((standing self.old).cannot_stand (ShownBy schedule.now))) (result_err result) };

    /// The moment of the last tick, if there was one.
    fn last_tick(&mut self) -> Result<Option<i64>, StoreFault>
        ensures reads { Reads (result_err result) (standing self.old) (standing self.new) }
        ensures value { (standing self.new).is_honest → IfOk result (λ last. last ≡ (standing self.old).content.tables.last_tick) }
        ensures judges { (standing self.new).is_honest → Judges (IsTrue ((standing self.old).cannot_stand LastTick)) (result_err result) };

    /// The entries that are imported into a calendar, in the byte order of their texts.
    fn entries(&mut self, calendar: &Name) -> Result<Vec<Entry>, StoreFault>
        ensures reads { Reads (result_err result) (standing self.old) (standing self.new) }
        ensures value { (standing self.new).is_honest → IfOk result (λ entries. AreEntries (standing self.old).content.tables calendar.now entries.items) }
        ensures judges { (standing self.new).is_honest → Judges (IsTrue ((standing self.old).cannot_stand (EntriesOf calendar.now))) (result_err result) };

    /// The names that stand in the tables.
    fn names(&mut self) -> Result<Names, StoreFault>
        ensures reads { Reads (result_err result) (standing self.old) (standing self.new) }
        ensures value { (standing self.new).is_honest → IfOk result (λ names. AreNames (standing self.old).content.tables names) }
        ensures bad { (standing self.new).is_honest → result ≡ Err BadRow → IsSomeBroken (standing self.old).cannot_stand }
        ensures stood { (standing self.new).is_honest → IfOk result (λ names. IsTrue ((standing self.old).cannot_stand AnyName) → ⊥) };

    /// Makes a whole change, or none of it. A change's numbers and priorities lie in their ranges.
    fn commit(&mut self, change: &Change) -> Result<(), StoreFault>
        requires { CanStand change.now }
        ensures commits { Commits change.now (result_err result) (standing self.old) (standing self.new) };

    /// How often the device or the database has failed; the count stays at its greatest value.
    fn failures(&self) -> u64
        ensures { result ≡ (standing self.now).failures };
}

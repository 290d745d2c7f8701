//! What is promised of maps in each run.
ghost use Rattle.std.specs.Prelude.{List};
ghost use Rattle.run_schedules.specs.Schedules.After.{moment};
ghost use Rattle.run_schedules.specs.Schedules.Entry.{Entry};
ghost use Rattle.run_schedules.specs.Schedules.Runs.{IsLegalLog};
ghost use Rattle.run_schedules.specs.Schedules.Terms.{Terms};
ghost use Rattle.papaya_steps.specs.WholeRuns.Classes.{HaveTheirOwn};

/// No key has two pairs in a map, after whichever events of a run: a call stores a pair only where its key's class has none in the map just then, or in the place of the one that it has.
pub fn keys_have_one_pair<K: Eq, V>()
    ensures own { (terms : Terms) (log : List (Entry K V)) → IsLegalLog K.eq terms log → HaveTheirOwn K.eq (moment log) }
{}

//! What is promised of the words in which a run is judged.
ghost use Rattle.std.specs.Prelude.{Bool};
ghost use Rattle.run_schedules.specs.Schedules.Rows.{RowsAgree};

/// Each row by which a call on one key is judged, case by case, is what the sequential specification of a whole finite map says of that call.
pub fn rows_agree<K, V>()
    ensures { (eq : K → K → Bool) → RowsAgree K V eq }
{}

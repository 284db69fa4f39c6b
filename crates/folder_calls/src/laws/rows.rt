//! Worked rows.
ghost use Rattle.folder_calls.specs.Samples.{IsRow, history_of_2, history_of_3, history_of_4};

/// Histories of 2, 3 and 4 entries at most, from the empty folder on, in worked rows.
pub fn histories_in_rows()
    ensures two { IsRow 2 history_of_2 }
    ensures three { IsRow 3 history_of_3 }
    ensures four { IsRow 4 history_of_4 }
{}

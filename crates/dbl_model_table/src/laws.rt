ghost use Rattle.dbl_model_table.specs.Laws.{KeysAreOrdered, EntriesHaveOneInfo};
ghost use Rattle.dbl_model_table.specs.Laws.{CapturableEntriesHaveAnInfo, TopicsNameTables};

/// Keys are totally ordered, and equal if and only if they compare as equal.
pub fn keys_are_ordered()
    ensures { KeysAreOrdered }
{}

/// A catalogue entry has at most one capture description.
pub fn entries_have_one_info()
    ensures { EntriesHaveOneInfo }
{}

/// A catalogue entry has a capture description if and only if it has no error.
pub fn capturable_entries_have_an_info()
    ensures { CapturableEntriesHaveAnInfo }
{}

/// Tables with equal topics have equal names.
pub fn topics_name_tables()
    ensures { TopicsNameTables }
{}

//! Alterations: they keep the key of their table, and what follows for the commits.
ghost use Rattle.dbl_model_history.specs.FitVersions.{VersionsAreInRange};
ghost use Rattle.dbl_model_history.specs.KeptKeys.{InfosHaveKeys, EntriesAreInForce};
ghost use Rattle.dbl_model_history.specs.KeptKeys.{VersionsFollow, ShapesAreInForce, ShapesAreDescriptions};

/// Captured tables that are as the catalogue describes them have its keys.
pub fn infos_have_keys()
    ensures { InfosHaveKeys }
{}

/// The catalogue after some commits has the entries in force there.
pub fn entries_are_in_force()
    ensures { EntriesAreInForce }
{}

/// If alterations keep the keys, each commit has the captured tables of the one before it, but for
/// the table that it alters.
pub fn versions_follow()
    ensures { VersionsFollow }
{}

/// If alterations keep the keys, each commit has the captured tables in the columns in force.
pub fn shapes_are_in_force()
    ensures { ShapesAreInForce }
{}

/// A captured table in the columns of its entry is as the entry describes it, if the entry can be
/// captured.
pub fn shapes_are_descriptions()
    ensures { ShapesAreDescriptions }
{}

/// The commits of a history in range are in range, for any captured tables.
pub fn versions_are_in_range()
    ensures { VersionsAreInRange }
{}

//! Courses of valid histories with alterations.
ghost use Rattle.dbl_consume_courses.specs.FitHistories.{FitHistoriesHaveFitVersions};
ghost use Rattle.dbl_consume_courses.specs.FitHistories.{PlainHistoriesHaveFitVersions};
ghost use Rattle.dbl_consume_courses.specs.FitVersions.{CoursesAreFit};

/// The course of a valid history satisfies what the theorems on commits without alterations
/// require of them.
pub fn courses_are_fit()
    ensures { CoursesAreFit }
{}

/// The captured commits of a valid history with alterations satisfy all that the theorems on
/// courses require of them.
pub fn fit_histories_have_fit_versions()
    ensures { FitHistoriesHaveFitVersions }
{}

/// The captured commits of a valid history without alterations satisfy it too.
pub fn plain_histories_have_fit_versions()
    ensures { PlainHistoriesHaveFitVersions }
{}

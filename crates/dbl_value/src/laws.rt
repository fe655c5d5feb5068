ghost use Rattle.dbl_value_types.specs.Forms.{TimeTextsAreClocks, StampTextsAreMoments};
ghost use Rattle.dbl_value_types.specs.Forms.{InstantTextsAreInstants, DateTextsAreDays};
ghost use Rattle.dbl_value_types.specs.Forms.{DaysAreDates, ByteTextsAreHex, UuidTextsAreGroups};
ghost use Rattle.dbl_value_types.specs.KindOrder.{KindsAreInOrder};
ghost use Rattle.dbl_value_types.specs.Laws.{DateRangesSpellNoValue, OidsNameTypes};
ghost use Rattle.dbl_value_types.specs.Laws.{TextsSpellOneValue, DecimalsSpellIntegers};
ghost use Rattle.dbl_value_types.specs.Laws.{TextsReadBack, JsonTellsCells, ValuesAreOrdered};

/// An OID is that of at most one column type, and each column type has an OID.
pub fn oids_name_types()
    ensures { OidsNameTypes }
{}

/// A text parses as at most one value of a type.
pub fn texts_spell_one_value()
    ensures { TextsSpellOneValue }
{}

/// A text parses as an integer if and only if it is the decimal text of one in the type's range.
pub fn decimals_spell_integers()
    ensures { DecimalsSpellIntegers }
{}

/// A value's text parses as the value.
pub fn texts_read_back()
    ensures { TextsReadBack }
{}

/// Cells of one column with equal JSON texts are equal.
pub fn json_tells_cells()
    ensures { JsonTellsCells }
{}

/// Values are totally ordered, and only equal values compare equal.
pub fn values_are_ordered()
    ensures { ValuesAreOrdered }
{}

/// The kinds ascend in the order null, truth values, integers, texts, byte strings, dates, times of
/// day, timestamps, instants.
pub fn kinds_are_in_order()
    ensures { KindsAreInOrder }
{}

/// A text parses as a date if and only if it is `YYYY-MM-DD` of a calendar day in the years 1 to
/// 9999.
pub fn date_texts_are_days()
    ensures { DateTextsAreDays }
{}

/// Each day in the years 1 to 9999 is that of exactly one date.
pub fn days_are_dates()
    ensures { DaysAreDates }
{}

/// A text parses as bytes if and only if it is `\x` and two lower-case hexadecimal digits for each
/// byte.
pub fn byte_texts_are_hex()
    ensures { ByteTextsAreHex }
{}

/// A text parses as a uuid if and only if it is five groups of lower-case hexadecimal digits.
pub fn uuid_texts_are_groups()
    ensures { UuidTextsAreGroups }
{}

/// A text parses as a time if and only if it is `HH:MM:SS` up to 23:59:59 with an optional fraction
/// of 1 to 6 digits, or `24:00:00`.
pub fn time_texts_are_clocks()
    ensures { TimeTextsAreClocks }
{}

/// A text parses as a timestamp if and only if it is a date, one space and a time before 24:00:00.
pub fn stamp_texts_are_moments()
    ensures { StampTextsAreMoments }
{}

/// A text parses as an instant if and only if it is a timestamp and an offset, and the instant is
/// in the years 1 to 9999.
pub fn instant_texts_are_instants()
    ensures { InstantTextsAreInstants }
{}

/// A text that denotes a date outside the years 1 to 9999 is no value.
pub fn date_ranges_spell_no_value()
    ensures { DateRangesSpellNoValue }
{}

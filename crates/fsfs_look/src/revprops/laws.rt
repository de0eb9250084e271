//! The laws of what is printed of a revision's properties. Each of these functions does nothing: what it ensures is proved
//! once for all bytes.
ghost use Rattle.fsfs_look.specs.Revprops.Texts.{AuthorText, DateText, LogText, InfoText};
ghost use Rattle.fsfs_look.specs.Revprops.Laws.{HaveOneText, AuthorsAreByProps, LogsAreByProps, DatesAreByProps, InfosAreByProps};

/// Whatever the bytes are, one text at most is printed, which ends for one cause; where a failure stops it, a first part of it
/// was printed.
pub fn prop_texts_are_one()
    ensures authors { HaveOneText AuthorText }
    ensures dates { HaveOneText DateText }
    ensures logs { HaveOneText LogText }
    ensures infos { HaveOneText InfoText }
{}

/// Where the property file of a revision shows properties whose date is in its form, what is printed is of these properties,
/// and nothing is refused.
pub fn prop_texts_are_by_the_properties()
    ensures authors { AuthorsAreByProps }
    ensures dates { DatesAreByProps }
    ensures logs { LogsAreByProps }
    ensures infos { InfosAreByProps }
{}

//! What follows from the definitions. These functions have empty bodies; each contract is a theorem.

ghost use Rattle.std.specs.Prelude.{◌≡◌, Some};
ghost use Rattle.text_model.specs.Texts.{Text};
ghost use Rattle.publication_dates.specs.Dates.{date_in};
ghost use Rattle.publication_dates.specs.Days.{IsDay, IsOf, first_day, last_day};
ghost use Rattle.publication_dates.specs.Forms.{IsDate};

/// A date as the standard writes it is found as it is.
pub fn dates_stay()
    ensures { (date : Text) → IsDate date → date_in date ≡ Some date }
{}

/// What is found is a date, with a day that its month has; so it is found again as it is.
pub fn dates_are_read()
    ensures { (text date : Text) → date_in text ≡ Some date → IsDate date }
{}

/// The first and the last day of a date are days of it, which the calendar has.
pub fn days_are_days()
    ensures first { (date : Text) → IsDate date → IsDay (first_day date) × IsOf date (first_day date) }
    ensures last { (date : Text) → IsDate date → IsDay (last_day date) × IsOf date (last_day date) }
{}

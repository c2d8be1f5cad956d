// Functions with empty bodies whose contracts are theorems: the gate asks for their proofs by name.
ghost use Rattle.numbers.specs.Rows.{EachGiven};
ghost use Rattle.calendar.specs.Laws.{CalendarLaws, HolidayLaws, HourBitLaws, ThirdMondayLaws};
ghost use Rattle.calendar.specs.Figures.{CalendarGiven, calendar_rows};

pub fn calendar()
    ensures { CalendarLaws }
{}

// 02, Item 1.
pub fn holidays()
    ensures { HolidayLaws }
{}

// 02, Item 4.
pub fn third_monday()
    ensures { ThirdMondayLaws }
{}

// Hours of a day as bits (02, Item 3).
pub fn hour_bits()
    ensures { HourBitLaws }
{}

// Figures a to d, and those of 02, Item 1.
pub fn calendar_figures()
    ensures { EachGiven CalendarGiven calendar_rows }
{}

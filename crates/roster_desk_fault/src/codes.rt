//! What each code says of a record, in the words of the table of codes.

/// What the code, from 1 to 14, says of the record.
pub(crate) fn sentence(code: u8) -> &'static str {
    match code {
        1 => "is the first and of another kind than `period`",
        2 => "is of a kind that is unknown, or not read by this command",
        3 => "has another number of fields than its kind",
        4 => "has a field that is not of its form, a year out of its range included",
        5 => "has a number outside its limits",
        6 => {
            "gives something a second time: a period (of any month), a weight, a name, the units of a person \
             with a pairing, or who flies a pairing (also if that is nobody)"
        }
        7 => "names a base, person, pairing or duty that was not given before",
        8 => {
            "gives a duty, sector or leave that ends no later than it begins; a duty that reports before the \
             pairing's last given duty is released; a sector that does not lie in its duty, or that begins \
             before the duty's last given sector ends"
        }
        9 => {
            "gives a duty or leave that reaches out of the window, by the clocks of the base of the pairing \
             or person"
        }
        10 => {
            "gives a zone text that is no rule, or clocks that can't be used in this window: a midnight, \
             08:00 or 22:00 that is no whole minute, or one that is not later than the one before"
        }
        11 => "is one more of its kind than the limit",
        12 => {
            "gives the first duty of a pairing (never a fixed duty), which reports away from the pairing's \
             base or outside the month there"
        }
        13 => {
            "gives a fixed duty or leave that shares a minute with an earlier fixed duty or leave of the \
             person"
        }
        _ => "gives a pairing that has no duty",
    }
}

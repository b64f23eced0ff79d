//! Moments of changes.

ghost use Rattle.std.specs.Prelude.{◌≡◌, MatchOption};
ghost use Rattle.osm_model.specs.Moments.{Moment, IsMoment};

use std::marker::Model;

/// The moment of a change, in UTC, without a calendar check: the 31st of February is one.
///
/// Year 0 to 9999, month 1 to 12, day 1 to 31, hour 0 to 23, minute 0 to 59, second 0 to 60, as the
/// timestamps `YYYY-MM-DDThh:mm:ssZ` of the OpenStreetMap API 0.6 spell it. Contracts see the record
/// of the six numbers.
#[derive(Clone, Copy, Debug, PartialEq, Eq)]
pub struct Stamp {
    year: u16,
    month: u8,
    day: u8,
    hour: u8,
    minute: u8,
    second: u8,
}

impl Model for Stamp {
    ghost use Rattle.osm_model.specs.Moments.{Moment, IsMoment};

    ghost Value = { Moment };

    ghost view = { λ a. record { year = a.year; month = a.month; day = a.day; hour = a.hour; minute = a.minute; second = a.second } };

    ghost invariant = { λ a. IsMoment (record { year = a.year; month = a.month; day = a.day; hour = a.hour; minute = a.minute; second = a.second }) };

    ghost inverse = { λ m. record { year = m.year; month = m.month; day = m.day; hour = m.hour; minute = m.minute; second = m.second } };
}

impl Stamp {
    /// The moment of these numbers, or `None` where one is out of its range.
    pub fn new(year: u16, month: u8, day: u8, hour: u8, minute: u8, second: u8) -> Option<Stamp>
        ensures { let moment : Moment = record { year = year; month = month; day = day; hour = hour; minute = minute; second = second } in
            MatchOption result (¬ IsMoment moment) (λ stamp. (stamp ≡ moment) × IsMoment moment) }
    {
        let is_moment = year <= 9999
            && (1..=12).contains(&month)
            && (1..=31).contains(&day)
            && hour <= 23
            && minute <= 59
            && second <= 60;
        if !is_moment {
            return None;
        }
        Some(Stamp {
            year,
            month,
            day,
            hour,
            minute,
            second,
        })
    }

    /// The year, 0 to 9999.
    pub fn year(self) -> u16
        ensures value { result ≡ self.year }
        ensures moment { IsMoment self }
    {
        self.year
    }

    /// The month, 1 to 12.
    pub fn month(self) -> u8
        ensures value { result ≡ self.month }
        ensures moment { IsMoment self }
    {
        self.month
    }

    /// The day, 1 to 31.
    pub fn day(self) -> u8
        ensures value { result ≡ self.day }
        ensures moment { IsMoment self }
    {
        self.day
    }

    /// The hour, 0 to 23.
    pub fn hour(self) -> u8
        ensures value { result ≡ self.hour }
        ensures moment { IsMoment self }
    {
        self.hour
    }

    /// The minute, 0 to 59.
    pub fn minute(self) -> u8
        ensures value { result ≡ self.minute }
        ensures moment { IsMoment self }
    {
        self.minute
    }

    /// The second, 0 to 60.
    pub fn second(self) -> u8
        ensures value { result ≡ self.second }
        ensures moment { IsMoment self }
    {
        self.second
    }
}

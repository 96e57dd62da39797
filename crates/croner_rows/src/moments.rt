//! Kinds of time.

use crate::Result;
use crate::shown::pair;
use croner::time::CronDateTime;
use croner::time::table::TableTime;
use croner_backends::{BoxedTime, NarrowTime};
use jiff::Zoned;
use jiff::civil::DateTime;
use serde_json::Value;
use std::alloc::Global;

/// A kind of time whose values are shown.
pub trait Moment: CronDateTime {
    /// The seconds since 1970-01-01T00:00:00: on the wall clock for civil time, otherwise in UTC.
    fn second(&self) -> i64;

    /// A text in civil time, otherwise the second.
    fn shown(&self, _alloc: Global) -> Result<Value> {
        Ok(Value::from(self.second()))
    }
}

impl Moment for DateTime {
    fn second(&self) -> i64 {
        self.to_plain().to_second()
    }

    fn shown(&self, alloc: Global) -> Result<Value> {
        Ok(Value::String(self.to_civil().to_string(alloc)?))
    }
}

impl<'t> Moment for TableTime<'t> {
    fn second(&self) -> i64 {
        TableTime::second(self)
    }
}

impl<'t> Moment for BoxedTime<'t> {
    fn second(&self) -> i64 {
        self.time().second()
    }
}

impl<'t> Moment for NarrowTime<'t> {
    fn second(&self) -> i64 {
        self.time().second()
    }
}

// With the nanosecond of the second where it isn't the first.
impl<'z> Moment for Zoned<'z> {
    fn second(&self) -> i64 {
        self.timestamp().as_second()
    }

    fn shown(&self, alloc: Global) -> Result<Value> {
        let second = Value::from(Moment::second(self));
        match self.timestamp().subsec_nanosecond() {
            0 => Ok(second),
            nanosecond => pair(alloc, second, Value::from(nanosecond)),
        }
    }
}

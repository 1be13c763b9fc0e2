mod printed;
mod reading;
mod texts;

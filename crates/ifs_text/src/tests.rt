mod printed;
mod reading;

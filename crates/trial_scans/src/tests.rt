// What no contract says: that scans come to their end, which chunks they take in which order, what stops them, and the
// words of a table that people can read.
mod expected;
mod long;
mod one;
mod passes;
mod two;

// Worked examples over stored bases, one file for each library, named like it.
mod decode;
mod reasons;
mod session;
mod stored;
mod why;

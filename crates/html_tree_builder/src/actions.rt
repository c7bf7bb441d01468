//! What the actions of rows do (HTML Standard, section 13.2.6).
mod act;
mod elements;
mod foreign;
mod formatting;
mod implied;
mod insertions;
mod leaving;
mod modes;
mod pending;
mod pointers;
mod scripts;

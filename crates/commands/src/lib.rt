// What each word of the program `desk` does, between streams and, for images, with files by their names: `desk` only fetches its arguments,
// so that the gate's program `cases` runs every word by the same function. What is made of a trace or a dump is the loop's (`running`);
// src/saving.rt has images by name. specs/ says what each promises; of what an operating system does nothing can be promised.
#![tactic(auto)]

pub mod conversions;
mod files;
pub mod images;
mod messages;
mod saving;
pub mod uses;
pub mod walls;

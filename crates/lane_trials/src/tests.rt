//! Cores and lanes over them, and the intake.
mod cores;
mod desk;
mod drives;
mod ends;
mod gates;
mod groups;
mod intakes;
mod lanes;
mod meets;
mod notes;
mod passes;
mod readers;
mod tables;
mod trial;
mod watches;
mod works;

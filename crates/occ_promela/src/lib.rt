//! A program as a model in Promela, the language of Spin (Holzmann, "The Spin Model Checker", 2003; spinroot.com),
//! so that properties in linear temporal logic can be asked there.
//!
//! Each variable is a global one of the model, since a program without loops declares each at most once. Channels are the rendezvous
//! channels of one array: a guard whose condition is false waits on an element that nobody uses. The parts of a PAR are processes that
//! count themselves where they end. What stands outside is one process that is ready for each event at any time.
#![tactic(auto)]

mod expression;
mod model;
mod outside;
mod part;
mod scope;
mod text;
mod texts;

pub use outside::model_of;

//! The parts of a page, each as plain data with its steps: promises, timers, animation frames, idle callbacks, signals,
//! priorities, listeners, the written choices and the text of a trace. Definitions alone, in `specs/`.
#![tactic(auto)]

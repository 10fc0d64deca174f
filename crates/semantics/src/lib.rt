// What a script means. This crate has definitions and no code: specs/World.antt has the effect of one record, specs/OwnRun.antt that
// of a script. The theorem `CompilerCorrect` compares compiled scripts with them. See docs/CHIP.md, "What a script means".

#![tactic(auto)]

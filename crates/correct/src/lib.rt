// The theorems: the compiler is correct, the interpreter is correct, and resuming a run adds to it (specs/CompilerCorrect.antt,
// InterpreterCorrect.antt, ResumeCorrect.antt). It also has the cases P1 to P11 and those about owners. There is no code here.

#![tactic(auto)]

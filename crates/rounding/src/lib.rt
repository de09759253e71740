// What the operations of a floating-point format do with values that are given as fractions: each result is the exact one, rounded once; where that fits it is exact, else off by little (definitions and laws only).
#![tactic(auto)]

// The integers as a commutative ring, the sizes of sums and products, and identities of polynomials by computation (laws only).
#![tactic(auto)]

// The places of a closed corner list: chains of the places of a corner, walks along them, and the hinge of a side by its two places (definitions and laws only).
#![tactic(auto)]

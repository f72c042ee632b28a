// Each written number becomes the nearest double, and each step of a ray is one rounding: what that means, and that it is so. No function.
#![tactic(auto)]

// Why a sheet is refused, in the subject's own words. specs/ says what is wrong with a text: no earlier check fails, every
// line above is lawful, every word to the left can stand, and the word there cannot, or is missing. proofs/ shows that
// the verdict on a text is a given fault exactly when that is so.
#![tactic(auto)]

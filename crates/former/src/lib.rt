// The service as it was before grey keys had words of their own, as definitions only, and that old programs see no difference. No code.
#![tactic(auto)]

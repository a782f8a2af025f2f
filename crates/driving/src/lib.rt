// The laws of the driver's calls: which registers they touch, that they keep a state well formed, what a refusal leaves. No code.
#![tactic(auto)]

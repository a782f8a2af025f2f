// The choice by a test that every definition uses, and the law about it: no code.
#![tactic(auto)]

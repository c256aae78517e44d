// When the parts of a record are sound, as walks over the lists: definitions and laws alone. The test is gate's.
#![tactic(auto)]

ghost use Rattle.std.specs.Prelude.{◌≡◌, [], ◌∷◌, ◌+◌, ◌≤◌};

// The standard function blocks that every program may use (IEC 61131-3, 2.5.2.3).
ghost use Rattle.std.specs.Prelude.{◌≡◌};
ghost use Rattle.front_end.specs.StandardBlocks.{prelude_text};

/// The text of the prelude.
#[tactic(auto, unfolding(crate::specs::StandardBlocks::prelude_text))]
pub fn prelude() -> &'static [u8]
    ensures { result.now ≡ prelude_text }
{
    b"FUNCTION_BLOCK R_TRIG VAR_INPUT CLK : BOOL; END_VAR VAR_OUTPUT Q : BOOL; END_VAR VAR M : BOOL; END_VAR \
      Q := CLK AND NOT M; M := CLK; END_FUNCTION_BLOCK \
      FUNCTION_BLOCK F_TRIG VAR_INPUT CLK : BOOL; END_VAR VAR_OUTPUT Q : BOOL; END_VAR VAR M : BOOL; END_VAR \
      Q := NOT CLK AND NOT M; M := NOT CLK; END_FUNCTION_BLOCK \
      FUNCTION_BLOCK SR VAR_INPUT S1, R : BOOL; END_VAR VAR_OUTPUT Q1 : BOOL; END_VAR \
      Q1 := S1 OR (NOT R AND Q1); END_FUNCTION_BLOCK \
      FUNCTION_BLOCK RS VAR_INPUT S, R1 : BOOL; END_VAR VAR_OUTPUT Q1 : BOOL; END_VAR \
      Q1 := NOT R1 AND (S OR Q1); END_FUNCTION_BLOCK \
      FUNCTION_BLOCK CTU VAR_INPUT CU, R : BOOL; PV : INT; END_VAR VAR_OUTPUT Q : BOOL; CV : INT; END_VAR VAR M : BOOL; END_VAR \
      IF R THEN CV := 0; ELSIF CU AND NOT M AND CV < 32767 THEN CV := CV + 1; END_IF; \
      M := CU; Q := CV >= PV; END_FUNCTION_BLOCK \
      FUNCTION_BLOCK CTD VAR_INPUT CD, LD : BOOL; PV : INT; END_VAR VAR_OUTPUT Q : BOOL; CV : INT; END_VAR VAR M : BOOL; END_VAR \
      IF LD THEN CV := PV; ELSIF CD AND NOT M AND CV > -32768 THEN CV := CV - 1; END_IF; \
      M := CD; Q := CV <= 0; END_FUNCTION_BLOCK \
      FUNCTION_BLOCK CTUD VAR_INPUT CU, CD, R, LD : BOOL; PV : INT; END_VAR VAR_OUTPUT QU, QD : BOOL; CV : INT; END_VAR \
      VAR MU, MD, U, D : BOOL; END_VAR U := CU AND NOT MU; D := CD AND NOT MD; MU := CU; MD := CD; \
      IF R THEN CV := 0; ELSIF LD THEN CV := PV; ELSIF U AND NOT D AND CV < 32767 THEN CV := CV + 1; \
      ELSIF D AND NOT U AND CV > -32768 THEN CV := CV - 1; END_IF; QU := CV >= PV; QD := CV <= 0; END_FUNCTION_BLOCK"
}

ghost use Rattle.std.specs.Prelude.{◌≡◌};
ghost use Rattle.gl_proof.specs.Line.{EndLine, HeadingLine, ended};
ghost use Rattle.gl_proof.specs.declared.version.Version.TheVariants.{Two};

/// The line with which a proof begins, before the first claim: proofs are written in version 2.
pub fn heading_line() -> &'static [u8]
    ensures { result.now ≡ ended (HeadingLine Two) }
{
    b"GLIDEPROOF 2\n"
}

/// The line with which a proof ends, behind the claims of the last entrant.
pub fn end_line() -> &'static [u8]
    ensures { result.now ≡ ended EndLine }
{
    b"END\n"
}

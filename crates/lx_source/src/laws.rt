//! What holds of generated sources: each law is the contract of a function with an empty body.
ghost use Rattle.std.specs.Prelude.{ℕ, ◌≤◌, List, Some};
ghost use Rattle.lx_base.specs.declared.faults.Fault.{Fault};
ghost use Rattle.lx_base.specs.declared.settings.Enc.TheVariants.{Byte};
ghost use Rattle.lx_compile.specs.FirstFault.{IsFirstFault};
ghost use Rattle.lx_compile.specs.declared.made.Made.{Made};
ghost use Rattle.lx_regex.specs.Kernel.{HasTooManyKernels};
ghost use Rattle.lx_source.specs.GeneratedRules.{rule_terms};
ghost use Rattle.lx_source.specs.Sources.{source_files, source_name, source_options};

/// The rules of a source of up to 200 words have no more kernels than a scanner may have, nor more places in them.
pub fn generated_rules_have_few_kernels()
    ensures { (count : ℕ) → count ≤ 200 → HasTooManyKernels Byte (rule_terms count) → ⊥ }
{}

/// The source of up to 200 rules has no fault.
pub fn generated_sources_have_no_fault()
    ensures { (rules : ℕ) (made : List Made) (fault : Fault) → rules ≤ 200 →
        IsFirstFault source_options (source_files rules) source_name made (Some fault) → ⊥ }
{}

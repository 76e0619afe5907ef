// The exports for programs in other languages: the four routines of `capi` under their C names, in the static library.
// include/rumbethola.h declares them. Each does what the routine of its name in `capi` does, and promises the same.
#![tactic(auto)]

ghost use Rattle.std.specs.Prelude.{◌≡◌};
ghost use Rattle.capi.specs.Entries.{report_entry, direct_entry, print_report_entry, print_direct_entry};

// The report: `capi::report::rumbethola_report`.
#[unsafe(no_mangle)]
pub extern "C" fn rumbethola_report(
    text: &[u8],
    cells: &mut [i32],
    work: &mut [u16],
    res: &mut [u16],
    answer: &mut [u64],
) -> u8
    ensures { record {
      status = result;
      answer = answer.new;
      lent = record { cells = cells.new; work = work.new; result = res.new };
    }
        ≡ report_entry text.now (record { cells = cells.old; work = work.old; result = res.old })
        answer.old }
{
    capi::report::rumbethola_report(text, cells, work, res, answer)
}

// The direct reading: `capi::direct::rumbethola_direct`.
#[unsafe(no_mangle)]
pub extern "C" fn rumbethola_direct(
    text: &[u8],
    cells: &mut [i32],
    work: &mut [u16],
    res: &mut [u16],
    answer: &mut [u64],
) -> u8
    ensures { record {
      status = result;
      answer = answer.new;
      lent = record { cells = cells.new; work = work.new; result = res.new };
    }
        ≡ direct_entry text.now (record { cells = cells.old; work = work.old; result = res.old })
        answer.old }
{
    capi::direct::rumbethola_direct(text, cells, work, res, answer)
}

// The print of the report: `capi::prints::rumbethola_print_report`.
#[unsafe(no_mangle)]
pub extern "C" fn rumbethola_print_report(
    text: &[u8],
    cells: &mut [i32],
    work: &mut [u16],
    res: &mut [u16],
    out: &mut [u8],
) -> u32
    ensures { record {
      bytes = result;
      output = out.new;
      lent = record { cells = cells.new; work = work.new; result = res.new };
    }
        ≡ print_report_entry text.now (record { cells = cells.old; work = work.old; result = res.old })
        out.old }
{
    capi::prints::rumbethola_print_report(text, cells, work, res, out)
}

// The print of the direct reading: `capi::prints::rumbethola_print_direct`.
#[unsafe(no_mangle)]
pub extern "C" fn rumbethola_print_direct(
    text: &[u8],
    cells: &mut [i32],
    work: &mut [u16],
    res: &mut [u16],
    out: &mut [u8],
) -> u32
    ensures { record {
      bytes = result;
      output = out.new;
      lent = record { cells = cells.new; work = work.new; result = res.new };
    }
        ≡ print_direct_entry text.now (record { cells = cells.old; work = work.old; result = res.old })
        out.old }
{
    capi::prints::rumbethola_print_direct(text, cells, work, res, out)
}

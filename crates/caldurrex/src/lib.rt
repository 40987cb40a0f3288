// The calls for a host written in C. A slice is a pointer and a length in elements; the choice of Arikan's transform is a byte, 0 for no and
// any other for yes.
#![tactic(auto)]

mod counted;
mod fields;

ghost use Rattle.std.specs.Prelude.{◌≡◌};
ghost use Rattle.spec.specs.Code.{code};
ghost use Rattle.spec.specs.Outcome.{written, encode_outcome, extract_outcome, lent, decode_outcome, read_outcome};
ghost use Rattle.spec.specs.JobWriter.{fields_of, write_outcome};
ghost use Rattle.spec.specs.TestLoad.{load_outcome};
ghost use Rattle.spec.specs.Samples.{quantised, quantise_outcome};
ghost use Rattle.spec.specs.ResultRecord.{operator_outcome, customer_outcome};
ghost use Rattle.spec.specs.ResultWriter.{result_of, write_result_outcome};
ghost use Rattle.spec.specs.WordList.{list_outcome};
ghost use Rattle.code.specs.Codes.{code_of};
ghost use Rattle.job.specs.Answer.{host_reading, for_host};
ghost use Rattle.record_writer.specs.Answer.{host_writing, length_for_host};
ghost use Rattle.test_load.specs.Answer.{host_loading, load_for_host};
ghost use Rattle.result.specs.Answer.{host_operator, host_customer, operator_for_host, customer_for_host};
ghost use Rattle.caldurrex.specs.Choice.{chosen};
ghost use Rattle.caldurrex.specs.Fields.{returned, as_returned};
ghost use Rattle.caldurrex.specs.CountFields.{returned_count, as_returned_count};

use code::Code;
use counted::CountedFields;
use fields::DecodedFields;
use job::JobFields;
use record_writer::RecordLength;
use refusals::number_for_host;
use result::ResultFields;
use test_load::LoadFields;

// The code of a call from C.
fn code_from_host<'a>(m: u32, arikan: u8, map: &'a [u8], pairs: &'a [u8]) -> Code<'a>
    ensures { code_of result ≡ code m (chosen arikan) map.now pairs.now }
{
    Code {
        m,
        arikan: arikan != 0,
        map,
        pairs,
    }
}

#[unsafe(no_mangle)]
pub extern "C" fn caldurrex_encode(
    m: u32,
    arikan: u8,
    map: &[u8],
    pairs: &[u8],
    payload: &[u8],
    word: &mut [u8],
) -> u32
    ensures { written result word.new
        ≡ encode_outcome (code m (chosen arikan) map.now pairs.now) payload.now word.old }
{
    let code = code_from_host(m, arikan, map, pairs);
    number_for_host(encoder::encode(code, payload, word))
}

#[unsafe(no_mangle)]
pub extern "C" fn caldurrex_extract(
    m: u32,
    arikan: u8,
    map: &[u8],
    pairs: &[u8],
    word: &[u8],
    payload: &mut [u8],
) -> u32
    ensures { written result payload.new
        ≡ extract_outcome (code m (chosen arikan) map.now pairs.now) word.now payload.old }
{
    let code = code_from_host(m, arikan, map, pairs);
    number_for_host(extractor::extract(code, word, payload))
}

#[unsafe(no_mangle)]
pub extern "C" fn caldurrex_decode(
    m: u32,
    arikan: u8,
    map: &[u8],
    pairs: &[u8],
    list: u32,
    stop: u32,
    soft: &[i16],
    numbers: &mut [u32],
    bytes: &mut [u8],
    inputs: &mut [u8],
    words: &mut [u8],
    scores: &mut [i32],
) -> DecodedFields
    ensures { returned result (lent numbers.new bytes.new inputs.new words.new scores.new)
        ≡ as_returned (decode_outcome (code m (chosen arikan) map.now pairs.now) list stop soft.now (lent numbers.old bytes.old inputs.old words.old scores.old)) }
{
    let code = code_from_host(m, arikan, map, pairs);
    decoder::decode(
        code, list, stop, soft, numbers, bytes, inputs, words, scores,
    )
    .into()
}

#[unsafe(no_mangle)]
pub extern "C" fn caldurrex_list_words(
    m: u32,
    arikan: u8,
    map: &[u8],
    pairs: &[u8],
    mark: i32,
    soft: &[i16],
    numbers: &mut [u32],
    bytes: &mut [u8],
    inputs: &mut [u8],
    words: &mut [u8],
    scores: &mut [i32],
) -> CountedFields
    ensures { returned_count result (lent numbers.new bytes.new inputs.new words.new scores.new)
        ≡ as_returned_count (list_outcome (code m (chosen arikan) map.now pairs.now) mark soft.now (lent numbers.old bytes.old inputs.old words.old scores.old)) }
{
    let code = code_from_host(m, arikan, map, pairs);
    list_words::list_words(code, mark, soft, numbers, bytes, inputs, words, scores).into()
}

#[unsafe(no_mangle)]
pub extern "C" fn caldurrex_read_job(
    bytes: &[u8],
    map: &mut [u8],
    soft: &mut [i16],
    pairs: &mut [u8],
) -> JobFields
    ensures { host_reading result map.new soft.new pairs.new
        ≡ for_host (read_outcome bytes.now map.old soft.old pairs.old) }
{
    job::read_job(bytes, map, soft, pairs).into()
}

#[unsafe(no_mangle)]
pub extern "C" fn caldurrex_write_job(
    m: u32,
    arikan: u8,
    map: &[u8],
    pairs: &[u8],
    list: u32,
    stop: u32,
    frame: u32,
    soft: &[i16],
    bytes: &mut [u8],
) -> RecordLength
    ensures { host_writing result bytes.new
        ≡ length_for_host (write_outcome (fields_of (code m (chosen arikan) map.now pairs.now) list stop frame soft.now)
        bytes.old) }
{
    let code = code_from_host(m, arikan, map, pairs);
    job_writer::write_job(code, list, stop, frame, soft, bytes).into()
}

#[unsafe(no_mangle)]
pub extern "C" fn caldurrex_test_load(
    state: u32,
    m: u32,
    arikan: u8,
    map: &[u8],
    pairs: &[u8],
    frame: u32,
    bytes: &mut [u8],
    payload: &mut [u8],
) -> LoadFields
    ensures { host_loading result bytes.new payload.new
        ≡ load_for_host (load_outcome state (code m (chosen arikan) map.now pairs.now) frame bytes.old
        payload.old) }
{
    let code = code_from_host(m, arikan, map, pairs);
    test_load::test_load(state, code, frame, bytes, payload).into()
}

#[unsafe(no_mangle)]
pub extern "C" fn caldurrex_quantise(m: u32, samples: &[u8], soft: &mut [i16]) -> u32
    ensures { quantised result soft.new ≡ quantise_outcome m samples.now soft.old }
{
    number_for_host(quantise::quantise(m, samples, soft))
}

#[unsafe(no_mangle)]
pub extern "C" fn caldurrex_write_result(
    m: u32,
    rows: u32,
    frame: u32,
    ceiling: i32,
    scores: &[i32],
    inputs: &[u8],
    bytes: &mut [u8],
) -> RecordLength
    ensures { host_writing result bytes.new
        ≡ length_for_host (write_result_outcome (result_of m rows frame ceiling scores.now inputs.now) bytes.old) }
{
    result_writer::write_result(m, rows, frame, ceiling, scores, inputs, bytes).into()
}

#[unsafe(no_mangle)]
pub extern "C" fn caldurrex_read_result(
    bytes: &[u8],
    scores: &mut [i32],
    inputs: &mut [u8],
) -> ResultFields
    ensures { host_customer result scores.new inputs.new
        ≡ customer_for_host (customer_outcome bytes.now scores.old inputs.old) }
{
    result::read_result(bytes, scores, inputs).into()
}

#[unsafe(no_mangle)]
pub extern "C" fn caldurrex_read_result_operator(bytes: &[u8], scores: &mut [i32]) -> ResultFields
    ensures { host_operator result scores.new ≡ operator_for_host (operator_outcome bytes.now scores.old) }
{
    result::read_result_operator(bytes, scores).into()
}

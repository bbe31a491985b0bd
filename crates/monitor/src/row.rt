// The samples of a tick.
ghost use Rattle.std.specs.Prelude.{◌≡◌, ◌<◌, ◌==◌, ℕ, Some, IfOk, OnOk};
ghost use Rattle.values.specs.Types.{code};
ghost use Rattle.values.specs.Values.{type_of, HasType, Proper};
ghost use Rattle.typing.specs.Scopes.{channel_types};
ghost use Rattle.syntax.specs.declared.record.Kind.TheVariants.{Channel};
ghost use Rattle.syntax.specs.Entries.{count};
ghost use Rattle.tables.specs.Tables.{records_of};
ghost use Rattle.engine.specs.Rings.{value_at};
ghost use Rattle.monitor.specs.Refusals.{fault_of_upper, bad_sample, first_bad_sample};
ghost use Rattle.monitor.specs.Samples.{row_value, TypedRow};

use crate::states::MonitorFault;
use faults::cause::Cause;
use faults::fault::Layer;
use sampling::sampler::Sampler;
use tables::table::Table;
use values::types::Type;
use values::value::Value;

// Whether a value is of a type.
fn has_type(value: Value, ty: Type) -> bool
    ensures answer { result ≡ (code (type_of value) == code ty) }
    ensures proper { Proper value }
{
    value.ty() == ty
}

// The sample of a channel, where the present row has a value of the declared type there.
fn read_sample<S: Sampler>(sampler: &S, channel: u8, ty: Type) -> Result<Value, MonitorFault>
    ensures answer { let m = S.meaning sampler.now in
        fault_of_upper result ≡ bad_sample ty channel (m.present channel) (m.dark channel) }
    ensures value { IfOk result (λ v.
        ((S.meaning sampler.now).present channel ≡ Some v) × HasType ty v) }
{
    let value = sampler.read(channel)?;
    if !has_type(value, ty) {
        return Err(MonitorFault::new(Layer::Monitor, Cause::OtherType(channel)));
    }
    Ok(value)
}

// The samples of the present row: at each declared channel a value of its type.
pub(crate) fn read_samples<S: Sampler>(
    table: &Table,
    sampler: &S,
) -> Result<[Value; 16], MonitorFault>
    ensures answer { let m = S.meaning sampler.now in fault_of_upper result ≡
        first_bad_sample (channel_types (records_of table.now)) 0 m.present m.dark }
    ensures typed { OnOk result
        (TypedRow (records_of table.now) (S.meaning sampler.now).present) }
    ensures row { IfOk result (λ row. (c : ℕ) → c < count Channel (records_of table.now) →
        value_at row c ≡ row_value (S.meaning sampler.now).present c) }
{
    let mut row = [Value::Bool(false); 16];
    for (channel, declared) in table.channels().iter().enumerate() {
        row[channel] = read_sample(sampler, channel as u8, declared.ty)?;
    }
    Ok(row)
}

//! The table of weights by which input channels are made into output channels.
ghost use Rattle.std.specs.Prelude.{◌≡◌, ◌<◌, ◌≤◌, ◌↔◌, All, IfErr, IsTrue, IfOk, length, ◌*◌, ◌*ℤ◌};
ghost use Rattle.plug_chain.specs.Held.{samples_of};
ghost use Rattle.plug_chain.specs.Tables.{IsSumOf, IsTable, IsWeight, output_channel, output_samples, usual_table, usual_weight, weighted_sum};

use crate::frame::Frame;
use snd_base::PcmError;
use std::alloc::Global;
use std::marker::Model;

/// What a weight of 1 is.
const ONE: i32 = 65536;

/// How input channels are made into output channels: a weight for each pair of the two, where 65536 counts the input once.
/// It is the `ttable` of ALSA's `route` plugin with its weights as whole numbers.
///
/// Contracts see the numbers of channels, and the weights by output.
#[derive(Debug, Drop)]
pub struct Table {
    inputs: u8,
    outputs: u8,
    weights: Vec<i32>,
}

impl Model for Table {
    ghost use Rattle.plug_chain.specs.Tables.{ChannelTable, IsTable};

    ghost Value = { ChannelTable };

    ghost view = { λ t. record {
      inputs = t.inputs;
      outputs = t.outputs;
      weights = t.weights.items;
    } };

    ghost invariant = { λ t. IsTable (record {
      inputs = t.inputs;
      outputs = t.outputs;
      weights = t.weights.items;
    }) };
}

impl Table {
    /// Whether these are the numbers of channels and the weights of a table: 1 to 8 inputs and outputs, `inputs * outputs`
    /// weights, and each from -65536 to 65536.
    pub fn can_new(inputs: u8, outputs: u8, weights: &[i32]) -> bool
        ensures { IsTrue result ↔ IsTable (record {
          inputs = inputs;
          outputs = outputs;
          weights = weights.now;
        }) }
    {
        are_channels(inputs) && are_channels(outputs) && are_weights(inputs, outputs, weights)
    }

    /// A table of these weights, all weights of the first output first. The caller has 1 to 8 inputs and outputs,
    /// `inputs * outputs` weights, and each from -65536 to 65536. It refuses, with `Memory`, only where no memory is left.
    pub fn new(alloc: Global, inputs: u8, outputs: u8, weights: &[i32]) -> Result<Table, PcmError>
        requires { IsTable (record { inputs = inputs; outputs = outputs; weights = weights.now }) }
        ensures ok { IfOk result (λ t. t ≡ record {
          inputs = inputs;
          outputs = outputs;
          weights = weights.now;
        }) }
        ensures only_memory { IfErr result (λ e. e ≡ PcmError.Memory) }
    {
        let weights = Vec::from_slice(alloc, weights)?;
        Ok(Table {
            inputs,
            outputs,
            weights,
        })
    }

    /// The table that is usual between these numbers of channels, 1 to 8 of each: equal numbers are each to its own, one
    /// input goes to every output, one output has an equal part of each input, and else each channel goes to that of its
    /// number, with silence beyond. It refuses, with `Memory`, only where no memory is left.
    pub fn usual(alloc: Global, inputs: u8, outputs: u8) -> Result<Table, PcmError>
        requires some_input { 1 ≤ inputs }
        requires few_inputs { inputs ≤ 8 }
        requires some_output { 1 ≤ outputs }
        requires few_outputs { outputs ≤ 8 }
        ensures ok { IfOk result (λ t. t ≡ usual_table inputs outputs) }
        ensures only_memory { IfErr result (λ e. e ≡ PcmError.Memory) }
    {
        let mut weights = Vec::new(alloc);
        for place in 0..inputs * outputs {
            weights.push(usual_weight(inputs, outputs, place / inputs, place % inputs))?;
        }
        Ok(Table {
            inputs,
            outputs,
            weights,
        })
    }

    /// How many input channels there are.
    pub fn inputs(&self) -> u8
        ensures value { result ≡ self.now.inputs }
        ensures bound { IsTable self.now }
    {
        self.inputs
    }

    /// How many output channels there are.
    pub fn outputs(&self) -> u8
        ensures value { result ≡ self.now.outputs }
        ensures bound { IsTable self.now }
    {
        self.outputs
    }

    /// Puts the output channels of a frame of the input into a frame.
    pub(crate) fn mix(&self, samples: &[i16], frame: &mut Frame)
        requires samples { length samples.now ≡ self.now.inputs }
        requires channels { length (samples_of frame.old) ≡ self.now.outputs }
        ensures { samples_of frame.new ≡ output_samples self.now samples.now }
    {
        for output in 0..self.outputs {
            frame.put(output, self.mix_channel(samples, output));
        }
    }

    /// One output channel of a frame of the input.
    fn mix_channel(&self, samples: &[i16], output: u8) -> i16
        requires samples { length samples.now ≡ self.now.inputs }
        requires output { output < self.now.outputs }
        ensures { result ≡ output_channel self.now samples.now output }
    {
        let start = output as usize * self.inputs as usize;
        let row = &self.weights[start..start + self.inputs as usize];
        weighted_sum(row, samples)
            .div_euclid(ONE as i64)
            .clamp(-32768, 32767) as i16
    }
}

/// Whether a number of channels is from 1 to 8.
fn are_channels(count: u8) -> bool
    ensures { IsTrue result ↔ ((1 ≤ count) × (count ≤ 8)) }
{
    1 <= count && count <= 8
}

/// Whether there is a weight for each pair of channels, and each is from -1 to 1.
fn are_weights(inputs: u8, outputs: u8, weights: &[i32]) -> bool
    ensures { IsTrue result ↔ ((length weights.now ≡ inputs * outputs) × All IsWeight weights.now) }
{
    weights.len() == inputs as usize * outputs as usize && weights.iter().all(|w| is_weight(*w))
}

/// Whether a weight is from -1 to 1.
fn is_weight(weight: i32) -> bool
    ensures { IsTrue result ↔ IsWeight weight }
{
    -ONE <= weight && weight <= ONE
}

/// A sample times its weight.
fn weighted(weight: i32, sample: i16) -> i64
    requires { IsWeight weight }
    ensures value { result ≡ weight *ℤ sample }
    ensures within { IsSumOf 1 result }
{
    i64::from(weight) * i64::from(sample)
}

/// The sum of the samples, each times its weight.
fn weighted_sum(weights: &[i32], samples: &[i16]) -> i64
    requires few { length weights.now ≤ 8 }
    requires weights { All IsWeight weights.now }
    requires pairs { length samples.now ≡ length weights.now }
    ensures value { result ≡ weighted_sum weights.now samples.now }
    ensures within { IsSumOf 8 result }
{
    let mut sum: i64 = 0;
    for (input, weight) in weights.iter().enumerate() {
        sum += weighted(*weight, samples[input]);
    }
    sum
}

/// The weight of an input in an output of the usual table.
fn usual_weight(inputs: u8, outputs: u8, output: u8, input: u8) -> i32
    requires { 1 ≤ inputs }
    ensures value { result ≡ usual_weight inputs outputs output input }
    ensures within { IsWeight result }
{
    if inputs != outputs && inputs == 1 {
        ONE
    } else if inputs != outputs && outputs == 1 {
        ONE / i32::from(inputs)
    } else if input == output {
        ONE
    } else {
        0
    }
}
